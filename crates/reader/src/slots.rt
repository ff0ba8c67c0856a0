// Question 7: every slot as laid out.
ghost use Rattle.std.specs.Prelude.{◌≡◌, not, ℕ, ◌+◌, ◌*◌, ◌/◌, ◌≤◌, ◌<◌, length};
ghost use Rattle.rows.specs.Lowest.{found};
ghost use Rattle.record.specs.Layout.{edition_of, slot_at};
ghost use Rattle.record.specs.Slots.{place_right, value_right, times_right, gaps_right, event_right, tail_right, slot_right};
ghost use Rattle.record.specs.Questions.{slots_in};

use super::framed::Framed;
use record::layout;
use rows::octets;

// Kind, site and state.
#[tactic(auto, unfolding(record::specs::Slots::place_right))]
fn place_holds(s: &[u8], at: usize) -> bool
    requires le_at { 512 ≤ at }
    requires at_in_bounds { at + 32 ≤ length s.now }
    ensures { result ≡ place_right s.now at }
{
    s[at] <= 1 && s[at + 1] < s[6] && s[at + 3] <= 1
}

#[tactic(auto, unfolding(record::specs::Slots::value_right))]
fn value_holds(s: &[u8], at: usize) -> bool
    requires { at + 32 ≤ length s.now }
    ensures { result ≡ value_right s.now at }
{
    match s[at + 8] {
        0 => octets::u32_at(s, at + 4) == 0 && s[at] == 0,
        1 => s[at] == 1 || s[at + 3] == 0,
        _ => false,
    }
}

#[tactic(auto, unfolding(record::specs::Slots::times_right))]
fn times_hold(s: &[u8], at: usize) -> bool
    requires { at + 32 ≤ length s.now }
    ensures { result ≡ times_right s.now at }
{
    let returned = octets::u64_at(s, at + 24);
    if s[at + 3] == 1 {
        returned == 0
    } else {
        octets::u64_at(s, at + 16) <= returned
    }
}

#[tactic(auto, unfolding(record::specs::Slots::gaps_right))]
fn gaps_hold(s: &[u8], at: usize) -> bool
    requires { at + 32 ≤ length s.now }
    ensures { result ≡ gaps_right s.now at }
{
    s[at + 9] == 0 && layout::is_zero(s, at + 12, 4)
}

// The slot of an event, its position and visible set aside.
#[tactic(auto, unfolding(record::specs::Slots::event_right))]
fn event_holds(s: &[u8], at: usize) -> bool
    requires le_at { 512 ≤ at }
    requires at_in_bounds { at + 32 ≤ length s.now }
    ensures { result ≡ event_right s.now at }
{
    place_holds(s, at) && value_holds(s, at) && times_hold(s, at) && gaps_hold(s, at)
}

impl<'a> Framed<'a> {
    // The bytes after the last slot of a block, where the slot at `at` is that one.
    fn tail_holds(&self, at: usize) -> bool
        requires { 512 * (at / 512 + 1) ≤ length self.now.bytes.now }
        ensures { (e : ℕ) → at ≡ slot_at (edition_of self.now.bytes.now) e → result ≡ tail_right (edition_of self.now.bytes.now) self.now.bytes.now e }
    {
        let ed = self.edition;
        (at + ed.rest) % 512 != 0
            || layout::is_zero(self.bytes, at + ed.slot, ed.rest - ed.slot - 4)
    }

    // Slot e, which starts at `at`.
    fn slot_holds(&self, e: usize, at: usize) -> bool
        requires at_value { at ≡ slot_at (edition_of self.now.bytes.now) e }
        requires e_bound { e < slots_in (edition_of self.now.bytes.now) self.now.bytes.now }
        ensures { result ≡ slot_right (edition_of self.now.bytes.now) self.now.bytes.now e }
    {
        let holds = if e < self.count {
            event_holds(self.bytes, at)
        } else {
            layout::is_zero(self.bytes, at, self.edition.slot)
        };
        holds && self.tail_holds(at)
    }

    // The lowest slot that is not as laid out, if there is any.
    pub fn wrong_slot(&self) -> Option<usize>
        ensures { result ≡ found (slots_in (edition_of self.now.bytes.now) self.now.bytes.now) (λ e. not (slot_right (edition_of self.now.bytes.now) self.now.bytes.now e)) }
    {
        let slots = self.edition.slots * (self.bytes.len() / 512 - 1);
        let mut at = 512;
        for e in 0..slots {
            if !self.slot_holds(e, at) {
                return Some(e);
            }
            at = layout::next_slot(self.edition, at);
        }
        None
    }
}
