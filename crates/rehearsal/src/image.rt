// The record of a run, written in place.
ghost use Rattle.std.specs.Prelude.{◌≡◌, true, List, ◌++◌, ℕ, ◌*◌, ◌≤◌, length, drop};
ghost use Rattle.record.specs.Layout.{store_layout, numbers_of, longest_record};
ghost use Rattle.record.specs.Terms.{Terms, openings_right};
ghost use Rattle.record.specs.Encode.{blocks_for, with_slots};
ghost use Rattle.store.specs.Recorded.{recorded, store_record};
ghost use Rattle.store.specs.Rehearsal.{terms_of};
ghost use Rattle.calls.specs.Lent.{with_counts, store_in};
ghost use Rattle.rehearsal.specs.Runs.{Ordered};

use super::{ranks, slots};
use calls::lent::{Store, Word};
use record::{Edition, layout};

// The slot of each event.
fn put_slots(ed: Edition, store: &Store, rec: &mut [u8])
    requires ed_value { ed ≡ numbers_of store_layout }
    requires ordered { Ordered store.now.count store.now.events }
    requires cells_in_bounds { 512 * blocks_for store_layout store.now.count ≤ length rec.old }
    ensures { (t : Terms) (held needs : List (List ℕ)) → rec.new ≡ with_slots store_layout (recorded (store_in t (with_counts store.now held needs))) store.now.count rec.old }
{
    let positions = ranks::positions(store.count, &store.events);
    let mut at: usize = 512;
    for k in 0..store.count {
        let put = rows::test(&store.puts, k);
        let x = slots::slot(k, Word(store.events[k]), put, positions[k]);
        writer::put_slot(rec, at, x, &store.sees[k]);
        at = layout::next_slot(ed, at);
    }
}

// The whole record, of n sites with these openings; the rest of the buffer stays. The result is the record's length. What sites hold and events need is not asked.
pub fn write(n: u8, openings: &[u8], store: &Store, rec: &mut [u8]) -> usize
    requires openings_len { (length openings.now ≡ 132) × (openings_right openings.now 0 ≡ true) × (longest_record ≤ length rec.old) }
    requires ordered { Ordered store.now.count store.now.events }
    ensures value { result ≡ 512 * blocks_for store_layout store.now.count }
    ensures rec_after { (t : Terms) (held needs : List (List ℕ)) → rec.new ≡ store_record store_layout n (terms_of openings.now) (store_in t (with_counts store.now held needs)) ++ drop (512 * blocks_for store_layout store.now.count) rec.old }
{
    let ed = layout::STORE;
    let blocks = layout::blocks(ed, store.count);
    writer::clear(rec, 512 * blocks);
    writer::header(rec, ed, store.count, n);
    writer::terms(rec, ed, 0, openings);
    put_slots(ed, store, rec);
    writer::seal(rec, blocks);
    512 * blocks
}
