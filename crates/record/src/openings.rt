// Openings as 132 bytes: a bit for each of 32 objects, and a value for each.
ghost use Rattle.std.specs.Prelude.{◌≡◌, ◌+◌, ◌≤◌, ◌<◌, length};
ghost use Rattle.record.specs.Terms.{stray, openings_right};

use rows::octets;

// Whether object o has a value under a clear bit.
fn is_stray(s: &[u8], at: usize, o: usize) -> bool
    requires { (at + 132 ≤ length s.now) × (o < 32) }
    ensures { result ≡ stray s.now at o }
{
    !octets::test(s, at, o) && octets::u32_at(s, at + 4 + 4 * o) != 0
}

// Whether no object has one, in the openings that start at `at`.
pub fn hold(s: &[u8], at: usize) -> bool
    requires { at + 132 ≤ length s.now }
    ensures { result ≡ openings_right s.now at }
{
    (0..32).all(|o| !is_stray(s, at, o))
}
