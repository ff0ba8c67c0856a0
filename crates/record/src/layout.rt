// Where things stand in a record.
ghost use Rattle.std.specs.Prelude.{◌≡◌, ◌+◌, ◌≤◌, ◌<◌, ◌^◌, length};
ghost use Rattle.record.specs.Layout.{Layout, numbers_of, next_slot, zeros};
ghost use Rattle.record.specs.Encode.{blocks_for};

use super::Edition;

// The editions.
pub const GCR1: Edition = Edition {
    letters: *b"GCR1",
    slot: 64,
    rest: 128,
    slots: 7,
    row: 4,
    events: 256,
    terms: false,
};

pub const GCR2: Edition = Edition {
    letters: *b"GCR2",
    terms: true,
    ..GCR1
};

pub const GCR3: Edition = Edition {
    letters: *b"GCR3",
    slot: 80,
    rest: 112,
    slots: 6,
    row: 6,
    events: 384,
    terms: true,
};

// The house's numbers, whatever a record's edition is: the most events, the bytes of the longest record, and words of 64 bits of a row of the work slice and of
// the whole slice.
pub const EVENTS: usize = 384;

pub const LONGEST: usize = 33280;

pub const ROW: usize = 6;

pub const WORK: usize = EVENTS * ROW;

// The edition in which a store leaves its record.
pub const STORE: Edition = GCR3;

// Whatever the edition: the objects; words of the fields of an event, of those of all events, and of the terms in block 0.
pub const OBJECTS: usize = 256;

pub const HEAD: usize = 4;

pub const HEADS: usize = EVENTS * HEAD;

pub const TERMS: usize = 17;

// Where the slot after the one at `at` starts: behind it, or in the next block where it is its block's last.
pub fn next_slot(ed: Edition, at: usize) -> usize
    requires { (at + 512 < 2 ^ 64) × (ed.slot ≤ 512) × (0 < ed.rest) × (ed.rest ≤ 512) }
    ensures { (L : Layout) → ed ≡ numbers_of L → result ≡ next_slot L at }
{
    let block = at + ed.rest;
    if block % 512 == 0 {
        block
    } else {
        at + ed.slot
    }
}

// How many blocks a record of n events has.
pub fn blocks(ed: Edition, n: usize) -> usize
    requires { (0 < ed.slots) × (n + ed.slots < 2 ^ 64) }
    ensures { (L : Layout) → ed ≡ numbers_of L → result ≡ blocks_for L n }
{
    1 + n.div_ceil(ed.slots)
}

// Whether the k bytes from `at` on are zero. They are put together and tested once, which compiles to whole vectors; a test of each does not.
pub fn is_zero(s: &[u8], at: usize, k: usize) -> bool
    requires { at + k ≤ length s.now }
    ensures { result ≡ zeros k s.now at }
{
    s[at..at + k].iter().fold(0, |all, byte| all | byte) == 0
}
