// Events placed one by one under a relation, of which row b has the events that are before b. What is placed is a row as wide as the relation's.
#![tactic(auto)]

ghost use Rattle.std.specs.Prelude.{◌≡◌, true, ℕ, ◌<◌, ◌≤◌, length, get_or};
ghost use Rattle.rows.specs.Lowest.{found};
ghost use Rattle.rows.specs.Row.{has};
ghost use Rattle.rows.specs.Relation.{related, Graph};
ghost use Rattle.rows.specs.Placing.{ready, all_placed, positions};

use rows::graph::Relation;

// Whether e is not placed, and all that is before it is.
fn is_ready(before: &Relation, placed: &[u64], e: usize) -> bool
    requires { (before.now.width ≡ length placed.now) × (e < before.now.count) }
    ensures { result ≡ ready before.now.count (related before.now.words.now before.now.width) (has placed.now) e }
{
    !rows::test(placed, e) && rows::is_subset(before.row(e), placed)
}

// The lowest event that is ready, if there is any.
fn next_ready(before: &Relation, placed: &[u64]) -> Option<usize>
    requires { before.now.width ≡ length placed.now }
    ensures { result ≡ found before.now.count (ready before.now.count (related before.now.words.now before.now.width) (has placed.now)) }
{
    (0..before.count).find(|e| is_ready(before, placed, *e))
}

// Whether each of the n events could be placed. Where so, `order`, which is lent, comes to have their positions: an Option would have nothing to hold.
pub fn place(table: &[u64], n: usize, placed: &mut [u64], order: &mut [u64]) -> bool
    requires { Graph table.now n (length placed.old) × (n ≤ length order.old) }
    ensures value { result ≡ all_placed n (related table.now (length placed.old)) }
    ensures e_after { result ≡ true → (e : ℕ) → e < n → get_or order.new e 0 ≡ positions n (related table.now (length placed.old)) e }
    ensures placed_len_unchanged { (length placed.new ≡ length placed.old) × (length order.new ≡ length order.old) }
{
    let before = Relation {
        words: table,
        count: n,
        width: placed.len(),
    };
    rows::clear(placed);
    for i in 0..n {
        let Some(e) = next_ready(&before, placed) else {
            return false;
        };
        order[e] = i as u64;
        rows::set(placed, e);
    }
    true
}
