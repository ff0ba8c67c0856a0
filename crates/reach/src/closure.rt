// A table comes to hold one or more steps of its relation. Each function is lent the table by itself: of a `&mut` in a struct, a proof knows nothing after it was read.
ghost use Rattle.std.specs.Prelude.{◌≡◌, refl, true, false, Some, None, ◌&&◌, ◌||◌, ℕ, ◌*◌, ◌/◌, ◌<◌, ◌≤◌, eqb, length};
ghost use Rattle.std.proofs.Common.{sym, ◌∙◌};
ghost use Rattle.rows.specs.Lowest.{some};
ghost use Rattle.rows.specs.Row.{has, row_at};
ghost use Rattle.rows.specs.Relation.{reaches, related, Filled, Graph};
ghost use Rattle.reach.specs.Walks.{two_steps, Nested, Closure, Settles, Onward, onward_joins, onward_again};

use crate::walk;
use crate::walk::Settling;
use rows::graph::Relation;
use rows::table_rows;

// Whoever's row has k takes in `row`, the row of k.
fn take_in(table: &mut [u64], n: usize, k: usize, row: &[u64])
    requires { (n * length row.now ≤ length table.old) × (k / 64 < length row.now) }
    ensures by_index { (b x : ℕ) → b < n → has (row_at table.new (length row.now) b) x ≡ has (row_at table.old (length row.now) b) x || has (row_at table.old (length row.now) b) k && has row.now x }
    ensures table_len_unchanged { length table.new ≡ length table.old }
{
    let w = row.len();
    for b in 0..n {
        if rows::test(table_rows::row(table, w, b), k) {
            rows::union_into(table, b * w, row);
        }
    }
}

// `close` in n rounds whatever the table holds (Warshall): round k adds the steps over event k.
fn close_by_rounds(table: &mut [u64], n: usize, w: usize)
    requires { (n * w ≤ length table.old) × (n ≤ 64 * w) × (w ≤ 8) }
    ensures closure { Closure n w table.old table.new }
    ensures table_len_unchanged { length table.new ≡ length table.old }
{
    let mut row = [0u64; 8];
    let row = &mut row[..w];
    for k in 0..n {
        row.copy_from_slice(table_rows::row(table, w, k));
        take_in(table, n, k, row);
    }
}

// The rows of the members of `rest` join `row`. With each member that `next` picks go those of its row, whose rows are in that.
fn gather<F: Fn(&[u64]) -> Option<usize>>(
    relation: &Relation,
    rest: &mut [u64],
    row: &mut [u64],
    next: F,
)
    requires lens { (length rest.old ≡ relation.now.width) × (length row.old ≡ relation.now.width) }
    requires nested { Nested relation.now.words.now relation.now.count relation.now.width rest.old }
    requires may_pick { (l : _) → length l.now ≡ relation.now.width → F.pre next l }
    requires picks { (l : _) (a : ℕ) → F.post next l (Some a) → has l.now a ≡ true }
    requires picks_none { (l : _) (x : ℕ) → F.post next l None → has l.now x ≡ false }
    ensures { (x : ℕ) → has row.new x ≡ has row.old x || some relation.now.count (λ a. has rest.old a && related relation.now.words.now relation.now.width x a) }
{
    while let Some(a) = next(rest) {
        let members = relation.row(a);
        rows::union(row, members);
        rows::discard(rest, members, a);
    }
}

// The rows of the members of row b join it. Few are left to join if a late member goes first, the lowest where all have numbers above b, as in a record numbered
// against time, and else the highest.
fn close_row(table: &mut [u64], n: usize, w: usize, b: usize)
    requires graph { Graph table.old n w × (w ≤ 8) }
    requires b_lt_n { b < n }
    requires nested { Nested table.old n w (row_at table.old w b) }
    ensures by_index { (c x : ℕ) → related table.new w x c ≡ eqb b c && two_steps n (related table.old w) x b || related table.old w x c }
    ensures table_len_unchanged { length table.new ≡ length table.old }
{
    let relation = Relation {
        words: table,
        count: n,
        width: w,
    };
    let mut rest = [0u64; 8];
    let mut row = [0u64; 8];
    let rest = &mut rest[..w];
    let row = &mut row[..w];
    rest.copy_from_slice(relation.row(b));
    if matches!(rows::lowest(rest), Some(a) if b < a) {
        gather(&relation, rest, row, rows::lowest);
    } else {
        gather(&relation, rest, row, rows::highest);
    }
    rows::union_into(table, b * w, row);
}

// Closes row b if it has settled events only, and settles b. Else the lowest of the others.
fn settle_row(table: &mut [u64], n: usize, w: usize, b: usize, settled: &mut [u64]) -> Option<usize>
    requires sound { Settles n w table.old settled.old table.old settled.old × (w ≤ 8) }
    requires settled_len { w ≤ length settled.old }
    requires b_lt_n { b < n }
    ensures comes { Onward n w table.old settled.old table.new settled.new }
    ensures waits { (x : ℕ) → result ≡ Some x → x < n }
    ensures settles { result ≡ None → has settled.new b ≡ true }
{
    if rows::test(settled, b) {
        return None;
    }
    let unsettled = rows::lowest_difference(table_rows::row(table, w, b), settled);
    if unsettled.is_none() {
        close_row(table, n, w, b);
        rows::set(settled, b);
    }
    unsettled
}

// A table of `count` rows of `width` words, in which the rows of settled events are closed.
#[derive(Drop)]
struct Closing<'a> {
    table: &'a mut [u64],
    count: usize,
    width: usize,
    settled: [u64; 8],
}

impl Settling for Closing<'_> {
    ghost events = { λ s. s.count };

    ghost is_settled = { λ s. has s.settled };

    ghost Comes = { λ s t. (t.count ≡ s.count) × (t.width ≡ s.width) × (t.width ≤ 8) × (t.table.ghost_name ≡ s.table.ghost_name) × Onward s.count s.width s.table.now s.settled t.table.now t.settled };

    fn count(&self) -> usize {
        self.count
    }

    fn settle(&mut self, b: usize) -> Option<usize> {
        settle_row(self.table, self.count, self.width, b, &mut self.settled)
    }

    ghost joins = { λ s t u e f. (f.0 ∙ e.0, f.1 ∙ e.1, f.2, f.3 ∙ e.3, onward_joins e.4 (rw (e.0, e.1) at f.4)) };

    ghost sound = { λ s t e. (refl, refl, e.2, refl, onward_again (rw (sym e.0, sym e.1) at e.4)) };

    ghost counts = { λ s t e. e.0 };

    ghost stays = { λ s t e. e.4.more };
}

// `close`, of a table with no words past its rows.
fn close_rows(table: &mut [u64], n: usize, w: usize)
    requires { Graph table.old n w × (w ≤ 8) }
    ensures closure { Closure n w table.old table.new }
    ensures table_len_unchanged { length table.new ≡ length table.old }
{
    let mut closing = Closing {
        table,
        count: n,
        width: w,
        settled: [0; 8],
    };
    if !walk::settle_all(&mut closing) {
        close_by_rounds(closing.table, n, w);
    }
}

// Closes a table in place: row b comes to have the events from which one or more steps lead to b. Quick on tables without rings.
pub fn close(table: &mut [u64], n: usize, w: usize)
    requires { Graph table.old n w × (w ≤ 8) }
    ensures { Filled n w (reaches n (related table.old w)) table.old table.new }
{
    close_rows(&mut table[..n * w], n, w);
}
