// A record that passed, written in another edition.
ghost use Rattle.std.specs.Prelude.{◌≡◌, ℕ, ◌+◌, ◌<◌, ◌≤◌, length, take, drop};
ghost use Rattle.std.proofs.lemmas.List.Edits.{sets};
ghost use Rattle.record.specs.Layout.{byte, edition_of, numbers_of, count_in};
ghost use Rattle.record.specs.History.{history_of};
ghost use Rattle.record.specs.Answers.{Passes};
ghost use Rattle.record.specs.Encode.{blocks_for, with_terms, with_slots};
ghost use Rattle.record.specs.Converted.{numbered, says_none, can_stand, length_in};
ghost use Rattle.converter.specs.Conversions.{moved_to, written_to, target_after};
ghost use Rattle.converter.specs.Blank.{Blank};

use super::{Conversion, Unconverted};
use reader::header;
use record::{Edition, layout};

// The edition of a number, 1 to 3.
fn by_number(k: usize) -> Edition
    ensures { result ≡ numbers_of (numbered k) }
{
    match k {
        1 => layout::GCR1,
        2 => layout::GCR2,
        _ => layout::GCR3,
    }
}

// So many bytes of s, from `here` on, over those of the target from `there` on.
fn copy_part(s: &[u8], here: usize, size: usize, target: &mut [u8], there: usize)
    requires { (here + size ≤ length s.now) × (there + size ≤ length target.old) }
    ensures { target.new ≡ sets target.old there (take size (drop here s.now)) }
{
    target[there..there + size].copy_from_slice(&s[here..here + size]);
}

// A record that passed.
#[derive(Clone, Copy)]
struct Record<'a> {
    bytes: &'a [u8],
    ghost passes: { Passes (edition_of bytes.now) bytes.now },
    ghost octets: { (i : ℕ) → byte bytes.now i < 256 },
}

impl<'a> Record<'a> {
    // Whether it says no difference of clocks and no opening.
    fn says_none(&self) -> bool
        ensures { result ≡ says_none (history_of (edition_of self.now.bytes.now) self.now.bytes.now).terms }
    {
        // The difference, and the bits of openings.
        !header::edition(self.bytes).terms || layout::is_zero(self.bytes, 8, 8)
    }

    // 44: whether what it says can stand in edition k.
    fn stands(&self, k: usize) -> bool
        ensures { result ≡ can_stand (numbered k) (history_of (edition_of self.now.bytes.now) self.now.bytes.now) }
    {
        let to = by_number(k);
        header::count(self.bytes) <= to.events && (to.terms || self.says_none())
    }

    // The terms, where both editions have them.
    fn put_terms(&self, k: usize, target: &mut [u8])
        requires { Blank 7 k self.now.bytes.now target.old }
        ensures { target.new ≡ with_terms (numbered k) (history_of (edition_of self.now.bytes.now) self.now.bytes.now).terms target.old }
    {
        if header::edition(self.bytes).terms && by_number(k).terms {
            copy_part(self.bytes, 8, 136, target, 8);
        }
    }

    // The slot of each event: what a wider one has more stays zero.
    fn put_slots(&self, k: usize, target: &mut [u8])
        requires { Blank 512 k self.now.bytes.now target.old }
        ensures { target.new ≡ with_slots (numbered k) (history_of (edition_of self.now.bytes.now) self.now.bytes.now) (count_in self.now.bytes.now) target.old }
    {
        let s = self.bytes;
        let from = header::edition(s);
        let to = by_number(k);
        let size = from.slot.min(to.slot);
        let mut here: usize = 512;
        let mut there: usize = 512;
        for e in 0..header::count(s) {
            copy_part(s, here, size, target, there);
            here = layout::next_slot(from, here);
            there = layout::next_slot(to, there);
        }
    }

    // The whole record, in edition k; the rest of the target stays.
    fn write(&self, k: usize, blocks: usize, target: &mut [u8])
        requires room { length_in (numbered k) self.now.bytes.now ≤ length target.old }
        requires blocks_value { blocks ≡ blocks_for (numbered k) (count_in self.now.bytes.now) }
        ensures { target.new ≡ written_to k self.now.bytes.now target.old }
    {
        let s = self.bytes;
        writer::clear(target, 512 * blocks);
        writer::header(target, by_number(k), header::count(s), s[6]);
        self.put_terms(k, target);
        self.put_slots(k, target);
        writer::seal(target, blocks);
    }
}

// 44 and 45; where both get a yes, the record is written.
pub fn move_to(k: usize, s: &[u8], target: &mut [u8]) -> Conversion
    requires { Passes (edition_of s.now) s.now }
    ensures value { result ≡ moved_to (edition_of s.now) (numbered k) (length target.old) s.now }
    ensures target_after { target.new ≡ target_after result k s.now target.old }
{
    let record = Record { bytes: s };
    if !record.stands(k) {
        return Err(Unconverted::CannotStand);
    }
    let blocks = layout::blocks(by_number(k), header::count(s));
    if target.len() < 512 * blocks {
        return Err(Unconverted::ShortTarget);
    }
    record.write(k, blocks, target);
    Ok(512 * blocks)
}
