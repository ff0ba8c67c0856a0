// The table of rb where clocks differ: so, which goes by one site's own, and who returned by more than the difference before an event starts.
ghost use Rattle.std.specs.Prelude.{◌≡◌, true, false, ℕ, ◌+◌, ◌-◌, ◌*◌, ◌<◌, ◌≤◌, ◌++◌, length, get_or, take, drop};
ghost use Rattle.rows.specs.Row.{Row};
ghost use Rattle.record.specs.Words.{return_in};
ghost use Rattle.tables.specs.Sweep.{InOrder, taken, ReturnedBefore, FarJoined};

use super::returned::Returned;
use events::heads::Heads;
use rows::table_rows;

// The first `size` words become those behind them.
pub fn put_again(t: &mut [u64], size: usize)
    requires { 2 * size ≤ length t.old }
    ensures { t.new ≡ take size (drop size t.old) ++ drop size t.old }
{
    let (front, back) = t.split_at_mut(size);
    front.copy_from_slice(&back[..size]);
}

// The events that returned before the time t join the row `far`.
fn join_before(returned: &mut Returned, t: u64, far: &mut [u64])
    requires in_bounds { let r = returned.old in (i : ℕ) → i < length r.order.now → get_or r.order.now i 0 < 64 * length far.old }
    requires early { let r = returned.old in (i : ℕ) → i < r.passed → return_in r.heads.words.now (get_or r.order.now i 0) < t }
    ensures same { let r = returned.old in (returned.new.heads ≡ r.heads) × (returned.new.order ≡ r.order) }
    ensures returned_before { let r = returned.old in ReturnedBefore r.heads.words.now r.order.now (length r.order.now) t returned.new.passed }
    ensures joined { let r = returned.old in (n : ℕ) → ((i : ℕ) → i < length r.order.now → get_or r.order.now i 0 < n) → Row n (taken r.order.now r.passed) far.old → Row n (taken r.order.now returned.new.passed) far.new }
    ensures far_len_unchanged { length far.new ≡ length far.old }
{
    while let Some(a) = returned.next_before(t) {
        rows::set(far, a);
    }
}

// To row c of a table are joined the events that returned before c's start less the difference. No sum of times is formed: where
// start is less, the time is 0, before which none returned. The orders stay slices with a clause: a public function asks no more.
pub fn join_far(
    heads: &Heads,
    n: usize,
    w: usize,
    difference: u64,
    starts: &[u16],
    returns: &[u16],
    t: &mut [u64],
)
    requires n_in_bounds { (4 * n ≤ length heads.now.words.now) × (n ≤ 64 * w) × (w ≤ 8) × (length t.old ≡ n * w) }
    requires in_order { InOrder heads.now.words.now n false starts.now (length starts.now) × InOrder heads.now.words.now n true returns.now (length returns.now) }
    ensures { FarJoined n w difference heads.now.words.now t.old t.new }
{
    let mut returned = Returned {
        heads: *heads,
        order: returns,
        passed: 0,
    };
    let mut far = [0u64; 8];
    for &start in starts {
        let c = start as usize;
        let time = heads.start_time(c).saturating_sub(difference);
        join_before(&mut returned, time, &mut far);
        table_rows::join_row(t, w, c, &far, 0);
    }
}
