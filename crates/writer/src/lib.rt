// A record written in place: zero bytes, block 0, slots, and the blocks' checks.
#![tactic(auto)]

ghost use Rattle.std.specs.Prelude.{◌≡◌, true, ◌++◌, ◌+◌, ◌*◌, ◌≤◌, ◌<◌, length, drop, replicate};
ghost use Rattle.std.proofs.lemmas.List.Edits.{sets};
ghost use Rattle.rows.specs.Row.{has};
ghost use Rattle.record.specs.Layout.{Layout, numbers_of};
ghost use Rattle.record.specs.Terms.{opening_in, openings_right};
ghost use Rattle.record.specs.Encode.{little_bytes, set_bytes, slot_from, header_bytes, with_terms, sealed};

use record::{Edition, Slot, sums};

// The bytes from `at` on become these.
fn put(s: &mut [u8], at: usize, bytes: &[u8])
    requires { at + length bytes.now ≤ length s.old }
    ensures { s.new ≡ sets s.old at bytes.now }
{
    s[at..at + bytes.len()].copy_from_slice(bytes);
}

// The first k bytes become zero. The length stands beside the slice here and in `seal`: both promise of the whole slice what callers go on with.
pub fn clear(s: &mut [u8], k: usize)
    requires { k ≤ length s.old }
    ensures { s.new ≡ replicate k 0 ++ drop k s.old }
{
    s[..k].fill(0);
}

// What every edition has in block 0, of n events.
pub fn header(s: &mut [u8], ed: Edition, n: usize, sites: u8)
    requires { (512 ≤ length s.old) × (n < 65536) }
    ensures { (L : Layout) → ed ≡ numbers_of L → s.new ≡ sets s.old 0 (header_bytes L n sites) }
{
    put(s, 0, &ed.letters);
    put(s, 4, &(n as u16).to_le_bytes());
    s[6] = sites;
}

// What block 0 says beside, where the edition has it: the difference of clocks, and the openings, which stand there as they are lent.
pub fn terms(s: &mut [u8], ed: Edition, difference: u32, openings: &[u8])
    requires { (512 ≤ length s.old) × (length openings.now ≡ 132) × (openings_right openings.now 0 ≡ true) }
    ensures { (L : Layout) → ed ≡ numbers_of L → s.new ≡ with_terms L (record { difference = difference; opening = opening_in openings.now 0 }) s.old }
{
    if ed.terms {
        put(s, 8, &difference.to_le_bytes());
        put(s, 12, openings);
    }
}

// The bytes of a visible set's word, cut by shift and mask where other numbers go by `to_le_bytes`: the form that the scope names (docs/DECISIONS.md, Forms).
fn octets_of(word: u64) -> [u8; 8]
    ensures { result ≡ little_bytes 8 word }
{
    [
        (word & 0xff) as u8,
        ((word >> 8) & 0xff) as u8,
        ((word >> 16) & 0xff) as u8,
        ((word >> 24) & 0xff) as u8,
        ((word >> 32) & 0xff) as u8,
        ((word >> 40) & 0xff) as u8,
        ((word >> 48) & 0xff) as u8,
        (word >> 56) as u8,
    ]
}

// A visible set: its bytes are those of its words.
fn put_row(s: &mut [u8], at: usize, row: &[u64])
    requires { at + 8 * length row.now ≤ length s.old }
    ensures { s.new ≡ sets s.old at (set_bytes (8 * length row.now) (has row.now)) }
{
    for (i, word) in row.iter().enumerate() {
        put(s, at + 8 * i, &octets_of(*word));
    }
}

// A slot, at its place, and in its visible set the members of a row, which has as many words as the edition's sets. `present` and `pending` stay beside the
// value and the return: this promises of every slot, also of one that has a value and says that none is present.
pub fn put_slot(s: &mut [u8], at: usize, x: Slot, row: &[u64])
    requires { at + (32 + 8 * length row.now) ≤ length s.old }
    ensures { s.new ≡ sets s.old at (slot_from x row.now) }
{
    put(s, at, &[x.write as u8, x.site, x.object, x.pending as u8]);
    put(s, at + 4, &x.value.to_le_bytes());
    put(s, at + 8, &[x.present as u8, 0]);
    put(s, at + 10, &x.position.to_le_bytes());
    put(s, at + 12, &[0; 4]);
    put(s, at + 16, &x.start.to_le_bytes());
    put(s, at + 24, &x.returned.to_le_bytes());
    put_row(s, at + 32, row);
}

// The checks of the first k blocks.
pub fn seal(s: &mut [u8], k: usize)
    requires { (512 * k ≤ length s.old) × (k ≤ 65536) }
    ensures { s.new ≡ sealed k s.old }
{
    for i in 0..k {
        let check = sums::of_block(s, i);
        put(s, 512 * i + 508, &(check.a as u16).to_le_bytes());
        put(s, 512 * i + 510, &(check.b as u16).to_le_bytes());
    }
}
