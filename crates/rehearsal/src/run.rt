// A whole script, from fresh sites with openings: each call gets the store that the one before left.
ghost use Rattle.std.specs.Prelude.{◌≡◌, ◌%◌, ◌≤◌, ◌<◌, length};
ghost use Rattle.record.specs.Terms.{Terms, opening_in};
ghost use Rattle.store.specs.Store.{untouched};
ghost use Rattle.store.specs.Rehearsal.{terms_of};
ghost use Rattle.calls.specs.Mirror.{cell_of};
ghost use Rattle.rehearsal.specs.Runs.{Fresh, Begun, Ran, Opened};

use calls::lent::Store;
use calls::{lent, script};
use rows::octets;

// What an object's cells start with: a word without a stamp, which is below every put's.
fn opened_cell(openings: &[u8], o: usize) -> u64
    requires { (length openings.now ≡ 132) × (o < 32) }
    ensures { cell_of result ≡ untouched (opening_in openings.now 0 o) }
{
    if octets::test(openings, 0, o) {
        lent::PRESENT + octets::u32_at(openings, 4 + 4 * o) as u64
    } else {
        0
    }
}

// The cells of a site.
pub fn opened(openings: &[u8]) -> [u64; lent::OBJECTS]
    requires { length openings.now ≡ 132 }
    ensures { Opened (terms_of openings.now) result }
{
    let mut cells = [0; lent::OBJECTS];
    // By index: after an adapter of iter_mut, or in `array::from_fn`, a proof doesn't know which opening a cell is made of.
    for o in 0..lent::OBJECTS {
        cells[o] = opened_cell(openings, o);
    }
    cells
}

// The answers are written to `out`, 8 bytes a call.
pub fn run(n: usize, script: &[u8], out: &mut [u8], store: &mut Store)
    requires n_bound { (n ≤ 8) × (length script.now % 8 ≡ 0) × (length script.now ≤ 32768) × (length script.now ≤ length out.old) }
    requires begun { Begun store.old }
    ensures { (t : Terms) → Fresh t store.old → Ran n t script.now out.old out.new store.new }
{
    for k in 0..script.len() / 8 {
        let at = 8 * k;
        let answer = store.call(n, script::asked_at(script, at));
        out[at..at + 8].copy_from_slice(&answer);
    }
}
