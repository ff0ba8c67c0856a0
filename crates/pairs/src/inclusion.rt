// An inclusion: the first pair in the left side but not the right. Row b of a table has the events related to b, so one pass over the rows finds where that
// pair begins; then the difference of that event's columns, taken a word of rows at a time, has the lowest end.
ghost use Rattle.std.specs.Prelude.{◌≡◌, ℕ, Bool, ◌+◌, ◌*◌, ◌/◌, ◌<◌, ◌≤◌, true, ◌&&◌, ltb, length};
ghost use Rattle.rows.specs.Lowest.{found};
ghost use Rattle.rows.specs.Row.{bit_of, has};
ghost use Rattle.rows.specs.Relation.{related};
ghost use Rattle.consistency.specs.FirstPair.{first};
ghost use Rattle.consistency.specs.Relations.{to};
ghost use Rattle.consistency.specs.Predicates.{outside};
ghost use Rattle.pairs.specs.Searches.{lacks, Whole};

use consistency::Verdict;
use rows::table_rows;

// Word k of the events to which q has a pair from a that r lacks: what the column of a has in q and not in r, from event 64 × k on.
fn outside_word<const W: usize>(a: usize, k: usize, n: usize, q: &[u64], r: &[u64]) -> u64
    requires { (n * W ≤ length q.now) × (n * W ≤ length r.now) × (a < 64 * W) × (k < W) × (W ≤ 8) }
    ensures { (j : ℕ) → j < 64 → bit_of result j ≡ ltb (k * 64 + j) n && outside (related q.now W) (related r.now W) a (k * 64 + j) }
{
    let rows = usize::min(n.saturating_sub(k * 64), 64);
    let mut x: u64 = 0;
    for j in 0..rows {
        let at = (k * 64 + j) * W + a / 64;
        x |= (((q[at] & !r[at]) >> (a % 64)) & 1) << j;
    }
    x
}

// The lowest event of `ends` to which q has a pair from a that r lacks, if there is any.
fn lowest_end<const W: usize>(
    a: usize,
    n: usize,
    q: &[u64],
    ends: &[u64],
    r: &[u64],
) -> Option<usize>
    requires ends_in_bounds { (n * W ≤ length q.now) × (n * W ≤ length r.now) × (length ends.now ≡ W) × (W ≤ 8) }
    requires n_bound { (n ≤ 64 * W) × (a < n) }
    ensures { result ≡ found n (outside (to (has ends.now) (related q.now W)) (related r.now W) a) }
{
    for (k, end) in ends.iter().enumerate() {
        let x = outside_word::<W>(a, k, n, q, r) & end;
        if x != 0 {
            return Some(k * 64 + x.trailing_zeros() as usize);
        }
    }
    None
}

// The first pair of q, from a member of `starts` to one of `ends`, that r lacks, where `may_end` tests for a member of `ends`.
fn search<F: Fn(usize) -> bool, const W: usize>(
    n: usize,
    q: &[u64],
    starts: &[u64],
    ends: &[u64],
    may_end: F,
    r: &[u64],
) -> Verdict
    requires starts_in_bounds { (n * W ≤ length q.now) × (n * W ≤ length r.now) × (length starts.now ≡ W) × (length ends.now ≡ W) × (W ≤ 8) }
    requires n_bound { n ≤ 64 * W }
    requires may_end { (b : ℕ) → b < n → F.pre may_end b × ((t : Bool) → F.post may_end b t → t ≡ has ends.now b) }
    ensures { result ≡ first n (lacks W q.now starts.now ends.now r.now) }
{
    let mut begins = [0u64; W];
    for b in 0..n {
        if may_end(b) {
            rows::join_outside(
                &mut begins,
                table_rows::row(q, W, b),
                starts,
                table_rows::row(r, W, b),
            );
        }
    }
    let a = rows::lowest(&begins)?;
    if n <= a {
        return None;
    }
    Some((a, lowest_end::<W>(a, n, q, ends, r)?))
}

// The first pair of q, from a member of `starts` to one of `ends`, that r lacks. Rows are of W words.
pub fn first_outside<const W: usize>(
    n: usize,
    q: &[u64],
    starts: &[u64],
    ends: &[u64],
    r: &[u64],
) -> Verdict
    requires starts_in_bounds { (n * W ≤ length q.now) × (n * W ≤ length r.now) × (length starts.now ≡ W) × (length ends.now ≡ W) × (W ≤ 8) }
    requires n_bound { n ≤ 64 * W }
    ensures { result ≡ first n (lacks W q.now starts.now ends.now r.now) }
{
    search::<_, W>(n, q, starts, ends, |b| rows::test(ends, b), r)
}

// The same where every event is in `ends`: no row is tested.
pub fn first_outside_whole<const W: usize>(
    n: usize,
    q: &[u64],
    starts: &[u64],
    ends: &[u64],
    r: &[u64],
) -> Verdict
    requires starts_in_bounds { (n * W ≤ length q.now) × (n * W ≤ length r.now) × (length starts.now ≡ W) × (length ends.now ≡ W) × (W ≤ 8) }
    requires n_bound { n ≤ 64 * W }
    requires whole { Whole true n ends.now }
    ensures { result ≡ first n (lacks W q.now starts.now ends.now r.now) }
{
    search::<_, W>(n, q, starts, ends, |_| true, r)
}
