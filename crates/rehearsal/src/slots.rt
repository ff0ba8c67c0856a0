// What the record says of an event.
ghost use Rattle.std.specs.Prelude.{◌≡◌, ◌<◌};
ghost use Rattle.record.specs.Layout.{most_events};
ghost use Rattle.rehearsal.specs.Runs.{slot_for};

use calls::lent::Word;
use record::Slot;

// Event k, with its word, a put or not, at its position in ar. It starts at 2 × k and returns at 2 × k + 1; none is pending.
pub fn slot(k: usize, word: Word, put: bool, position: u16) -> Slot
    requires { k < most_events }
    ensures { result ≡ slot_for k word.0 put position }
{
    let present = word.is_present();
    Slot {
        write: put,
        site: word.site() as u8,
        object: word.object(),
        pending: false,
        present,
        value: if present { word.value() } else { 0 },
        position,
        start: 2 * k as u64,
        returned: 2 * k as u64 + 1,
    }
}
