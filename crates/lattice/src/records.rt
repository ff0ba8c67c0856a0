// The eight records that tell models apart, built by the writer.
ghost use Rattle.std.specs.Prelude.{◌≡◌, ◌≤◌, length};
ghost use Rattle.record.specs.Encode.{with_slots};
ghost use Rattle.record.specs.Layout.{gcr2};
ghost use Rattle.consistency.specs.Separating.{separating_history, separating_bytes};
ghost use Rattle.lattice.specs.Noted.{two_blocks, events_of};

use record::{Slot, layout};

// The bytes of each: block 0, and a block for its slots.
pub const LENGTH: usize = 1024;

// An event's slot, and which events of its record it sees, event b being bit b.
#[derive(Clone, Copy)]
pub struct Event {
    pub slot: Slot,
    pub sees: u64,
}

// A line of the table: whether it is a write, site, object, whether it is pending, whether it has a value, the value, position, start, return, and what it sees.
macro_rules! row {
    ($write:literal, $site:literal, $object:literal, $pending:literal, $present:literal, $value:literal, $position:literal, $start:literal, $returned:literal, $sees:literal) => {
        Event {
            slot: Slot {
                write: $write,
                site: $site,
                object: $object,
                pending: $pending,
                present: $present,
                value: $value,
                position: $position,
                start: $start,
                returned: $returned,
            },
            sees: $sees,
        }
    };
}

const EVENTS: [&[Event]; 8] = [
    &[
        row!(true, 0, 0, false, true, 7, 1, 1, 2, 0b010),
        row!(false, 1, 0, false, false, 0, 0, 3, 4, 0b000),
    ],
    &[
        row!(true, 0, 0, false, true, 7, 0, 1, 2, 0b000),
        row!(true, 1, 0, false, true, 8, 1, 1, 2, 0b000),
    ],
    &[
        row!(true, 0, 0, false, true, 7, 0, 1, 2, 0b000),
        row!(false, 1, 0, false, true, 7, 1, 3, 4, 0b001),
        row!(false, 1, 1, false, false, 0, 2, 5, 6, 0b010),
    ],
    &[
        row!(true, 0, 0, false, true, 7, 1, 1, 2, 0b000),
        row!(false, 0, 0, false, true, 7, 2, 3, 4, 0b001),
        row!(true, 0, 1, false, true, 8, 0, 5, 6, 0b011),
    ],
    &[
        row!(true, 0, 0, false, true, 7, 1, 1, 6, 0b100),
        row!(false, 1, 0, false, true, 7, 2, 2, 3, 0b101),
        row!(false, 1, 0, false, false, 0, 0, 4, 5, 0b000),
    ],
    &[
        row!(true, 0, 0, false, true, 7, 1, 1, 6, 0b000),
        row!(false, 1, 0, false, true, 7, 2, 2, 3, 0b001),
        row!(true, 1, 0, true, true, 8, 0, 4, 0, 0b000),
    ],
    &[
        row!(true, 0, 0, false, true, 7, 0, 1, 2, 0b000),
        row!(false, 0, 1, false, false, 0, 1, 3, 4, 0b000),
    ],
    &[
        row!(true, 0, 0, false, true, 7, 1, 1, 2, 0b000),
        row!(true, 0, 0, false, true, 8, 0, 3, 4, 0b000),
    ],
];

// One of them, by number.
#[derive(Clone, Copy)]
pub struct Record {
    pub number: usize,
    pub ghost known: { (1 ≤ number) × (number ≤ 8) },
}

impl Record {
    fn events(self) -> &'static [Event]
        ensures { result.now ≡ events_of (separating_history self.number) }
    {
        EVENTS[self.number - 1]
    }

    fn put_slots(self, rec: &mut [u8])
        requires { length rec.old ≡ two_blocks }
        ensures { rec.new ≡ with_slots gcr2 (separating_history self.number) (separating_history self.number).count rec.old }
    {
        let mut at: usize = 512;
        for event in self.events() {
            let mut sees = [0u64; layout::ROW];
            sees[0] = event.sees;
            writer::put_slot(rec, at, event.slot, &sees[..layout::GCR2.row]);
            at = layout::next_slot(layout::GCR2, at);
        }
    }

    // The record's bytes, of two sites.
    pub fn write(self, rec: &mut [u8])
        requires { length rec.old ≡ two_blocks }
        ensures { rec.new ≡ separating_bytes self.number }
    {
        let openings = [0u8; 132];
        writer::clear(rec, LENGTH);
        writer::header(rec, layout::GCR2, self.events().len(), 2);
        writer::terms(rec, layout::GCR2, 0, &openings);
        self.put_slots(rec);
        writer::seal(rec, 2);
    }
}
