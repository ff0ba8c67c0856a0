// The store that calls change, and what the words of its events and cells have.
ghost use Rattle.std.specs.Prelude.{◌≡◌, ◌+◌, ◌*◌, ◌≤◌, ◌<◌, ◌^◌};
ghost use Rattle.record.specs.Layout.{most_events};
ghost use Rattle.calls.specs.Mirror.{word_value, word_present, word_object, word_site, word_stamp, word_order, shown_bits};

use record::layout;

pub const SITES: usize = 8;

pub const OBJECTS: usize = 32;

// A store, of some 30 kB, so it is lent and never moved.
#[derive(Drop)]
pub struct Store {
    // What each site knows.
    pub known: [[u64; layout::ROW]; SITES],
    // The events that are puts.
    pub puts: [u64; layout::ROW],
    // What each event sees.
    pub sees: [[u64; layout::ROW]; layout::EVENTS],
    // At each site a word for each object.
    pub cells: [[u64; OBJECTS]; SITES],
    pub clocks: [u64; SITES],
    // How many events there are.
    pub count: usize,
    // The word of each event.
    pub events: [u64; layout::EVENTS],
    // How many puts each site holds from each.
    pub held: [[u16; SITES]; SITES],
    // How many of each site's puts an event needs.
    pub needs: [[u16; SITES]; layout::EVENTS],
}

// From its lowest bit it has 32 of a value, one for whether there is a value, 7 of an object, 3 of a site, and then a stamp.
#[derive(Clone, Copy)]
pub struct Word(pub u64);

pub const PRESENT: u64 = 0x1_0000_0000;

const OBJECT: u64 = 0x2_0000_0000;

const SITE: u64 = 0x100_0000_0000;

const STAMP: u64 = 0x800_0000_0000;

impl Word {
    // The word of an event after `clock` at a site, on an object; `shown` is a value with its bit above it, or 0.
    pub fn new(clock: u64, site: u8, object: u8, shown: u64) -> Word
        requires { (clock ≤ most_events) × (site < 8) × (object ≤ 31) × (shown < 2 ^ 33) }
        ensures { result.0 ≡ (8 * (clock + 1) + site) * 2 ^ 40 + (object * 2 ^ 33 + shown) }
    {
        Word((8 * (clock + 1) + site as u64) * SITE + (object as u64 * OBJECT + shown))
    }

    // The same, with the value that an event writes or finds.
    pub fn made(clock: u64, site: u8, object: u8, shown: Option<u32>) -> Word
        requires { (clock ≤ most_events) × (site < 8) × (object ≤ 31) }
        ensures { result.0 ≡ (8 * (clock + 1) + site) * 2 ^ 40 + (object * 2 ^ 33 + shown_bits shown) }
    {
        match shown {
            Some(value) => Word::new(clock, site, object, PRESENT + value as u64),
            None => Word::new(clock, site, object, 0),
        }
    }

    pub fn value(self) -> u32
        ensures { result ≡ word_value self.0 }
    {
        (self.0 % PRESENT) as u32
    }

    pub fn is_present(self) -> bool
        ensures { result ≡ word_present self.0 }
    {
        self.0 / PRESENT % 2 == 1
    }

    pub fn object(self) -> u8
        ensures { result ≡ word_object self.0 }
    {
        (self.0 / OBJECT % 128) as u8
    }

    pub fn site(self) -> u16
        ensures { result ≡ word_site self.0 }
    {
        (self.0 / SITE % 8) as u16
    }

    pub fn stamp(self) -> u64
        ensures { result ≡ word_stamp self.0 }
    {
        self.0 / STAMP
    }

    // Stamp and site as one number, by which events are in order.
    pub fn order(self) -> usize
        ensures { result ≡ word_order self.0 }
    {
        (self.0 / SITE) as usize
    }
}
