// Questions 3 and 5: the record's length and block 0.
ghost use Rattle.std.specs.Prelude.{◌≡◌, ◌≤◌, length, take};
ghost use Rattle.record.specs.Layout.{Layout, edition_of, numbers_of, count_in, sites_in, same};
ghost use Rattle.record.specs.Questions.{length_right, terms_right, header_right};

use record::{Edition, layout, openings};
use rows::octets;

#[tactic(auto, unfolding(record::specs::Questions::length_right))]
pub fn length_holds(s: &[u8]) -> bool
    ensures { result ≡ length_right s.now }
{
    512 <= s.len() && s.len() <= layout::LONGEST && s.len() % 512 == 0
}

// n, the event count.
pub fn count(s: &[u8]) -> usize
    requires { 512 ≤ length s.now }
    ensures { result ≡ count_in s.now }
{
    usize::from(octets::u16_at(s, 4))
}

fn sites(s: &[u8]) -> u8
    requires { 512 ≤ length s.now }
    ensures { result ≡ sites_in s.now }
{
    s[6]
}

fn has_letters(s: &[u8], letters: [u8; 4]) -> bool
    ensures { result ≡ same (take 4 s.now) letters }
{
    4 <= s.len() && s[..4] == letters[..]
}

// The edition that a record's letters name. Constants one by one, and no search of a list of them: so the compiled loops know how wide a set can be.
pub fn edition(s: &[u8]) -> Edition
    ensures { result ≡ numbers_of (edition_of s.now) }
{
    if has_letters(s, layout::GCR3.letters) {
        layout::GCR3
    } else if has_letters(s, layout::GCR2.letters) {
        layout::GCR2
    } else {
        layout::GCR1
    }
}

// The bytes behind the sites, where there are terms and where there are none.
#[tactic(auto, unfolding(record::specs::Questions::terms_right))]
fn terms_hold(s: &[u8], terms: bool) -> bool
    requires { 512 ≤ length s.now }
    ensures { (L : Layout) → terms ≡ L.terms → result ≡ terms_right L s.now }
{
    if terms {
        layout::is_zero(s, 7, 1) && openings::hold(s, 12) && layout::is_zero(s, 144, 364)
    } else {
        layout::is_zero(s, 7, 501)
    }
}

#[tactic(auto, unfolding(record::specs::Questions::header_right))]
pub fn header_holds(s: &[u8], ed: Edition) -> bool
    requires { 512 ≤ length s.now }
    ensures { (L : Layout) → ed ≡ numbers_of L → result ≡ header_right L s.now }
{
    has_letters(s, ed.letters)
        && count(s) <= ed.events
        && 1 <= sites(s)
        && sites(s) <= 8
        && terms_hold(s, ed.terms)
}
