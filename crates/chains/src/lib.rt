// The events of a shortest chain of steps in a relation, of which row b has the events from which a step leads to b.
#![tactic(auto)]

ghost use Rattle.std.specs.Prelude.{◌≡◌, true, ◌&&◌, ◌||◌, ◌++◌, ℕ, ◌+◌, ◌*◌, ◌<◌, ◌≤◌, length, drop};
ghost use Rattle.rows.specs.Lowest.{found, some};
ghost use Rattle.rows.specs.Row.{has, only_first};
ghost use Rattle.rows.specs.Relation.{reaches, related};
ghost use Rattle.rows.specs.Shortest.{distance, shortest_chain};
ghost use Rattle.record.specs.Layout.{most_events, row_words};
ghost use Rattle.chains.specs.Near.{Near};

use record::layout;
use rows::graph::Relation;
use rows::table_rows;

// Those members of `near` that `done` lacks join it, and their rows join `next`.
fn join_rows(relation: &Relation, near: &[u64], done: &mut [u64], next: &mut [u64])
    requires lens { (length near.now ≡ relation.now.width) × (length done.old ≡ relation.now.width) × (length next.old ≡ relation.now.width) }
    requires by_index { (x : ℕ) → has near.now x ≡ true → x < relation.now.count }
    ensures by_index_2 { (x : ℕ) → has next.new x ≡ has next.old x || some relation.now.count (λ m. only_first near.now done.old m && related relation.now.words.now relation.now.width x m) }
    ensures by_index_3 { (x : ℕ) → has done.new x ≡ has done.old x || has near.now x }
{
    while let Some(m) = rows::lowest_difference(near, done) {
        rows::set(done, m);
        rows::union(next, relation.row(m));
    }
}

// Row k of `near` comes to have the events from which at most k steps lead to b, for each k up to the answer, which is one less than the steps that a needs.
fn fill_near(relation: &Relation, a: usize, b: usize, near: &mut [u64]) -> usize
    requires ends { (a < relation.now.count) × (b < relation.now.count) × (relation.now.width ≤ 8) }
    requires room { relation.now.count * relation.now.width + relation.now.width ≤ length near.old }
    requires b_value { reaches relation.now.count (related relation.now.words.now relation.now.width) a b ≡ true }
    ensures value { (result ≡ distance relation.now.count (related relation.now.words.now relation.now.width) a b) × (result < relation.now.count) }
    ensures near { Near relation.now.words.now relation.now.count relation.now.width b result near.new }
    ensures near_len_unchanged { length near.new ≡ length near.old }
{
    let w = relation.width;
    let mut done = [0u64; 8];
    let mut next = [0u64; 8];
    let done = &mut done[..w];
    let next = &mut next[..w];
    table_rows::put_row(near, w, 0, done, 0);
    rows::union(next, relation.row(b));
    let mut k = 0;
    while !rows::test(next, a) {
        k += 1;
        table_rows::put_row(near, w, k, next, 0);
        join_rows(relation, table_rows::row(near, w, k), done, next);
    }
    k
}

// The lowest member of `near` that `without` lacks and to which a step leads from e, if there is any. What is tried in vain joins `tried`.
pub fn lowest_after(relation: &Relation, e: usize, near: &[u64], without: &[u64]) -> Option<usize>
    requires lens { (length near.now ≡ relation.now.width) × (length without.now ≡ relation.now.width) × (relation.now.width ≤ 8) }
    requires e_lt_n { e < relation.now.count }
    requires by_index { (x : ℕ) → has near.now x ≡ true → x < relation.now.count }
    ensures { result ≡ found relation.now.count (λ m. only_first near.now without.now m && related relation.now.words.now relation.now.width e m) }
{
    let mut tried = [0u64; 8];
    let tried = &mut tried[..relation.width];
    tried.copy_from_slice(without);
    while let Some(m) = rows::lowest_difference(near, tried) {
        if rows::test(relation.row(m), e) {
            return Some(m);
        }
        rows::set(tried, m);
    }
    None
}

// Writes to the front of `out` the events after a, b last, of a shortest chain of steps from a to b, each next one the lowest possible; how many they are.
pub fn shortest(relation: &Relation, a: usize, b: usize, out: &mut [u16]) -> usize
    requires width { (relation.now.width ≤ 8) × (relation.now.count * relation.now.width + relation.now.width ≤ (most_events + 1) * row_words) }
    requires a_lt_n { (a < relation.now.count) × (b < relation.now.count) × (relation.now.count ≤ length out.old) }
    requires b_value { reaches relation.now.count (related relation.now.words.now relation.now.width) a b ≡ true }
    ensures value { result ≡ length (shortest_chain relation.now.count (related relation.now.words.now relation.now.width) a b) }
    ensures out_after { out.new ≡ shortest_chain relation.now.count (related relation.now.words.now relation.now.width) a b ++ drop result out.old }
{
    // a row for each event, and one more
    let mut near = [0u64; (layout::EVENTS + 1) * layout::ROW];
    let last = fill_near(relation, a, b, &mut near);
    let w = relation.width;
    let mut e = a;
    for i in 0..last {
        let k = last - 1 - i;
        let near_enough = table_rows::row(&near, w, k + 1);
        let nearer = table_rows::row(&near, w, k);
        e = lowest_after(relation, e, near_enough, nearer).unwrap();
        out[i] = e as u16;
    }
    out[last] = b as u16;
    last + 1
}
