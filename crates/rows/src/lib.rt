// Bit rows of any width in lent slices: a row of w words is a set of numbers below 64 * w.
#![tactic(auto)]

pub mod graph;
pub mod octets;
pub mod table_rows;

ghost use Rattle.std.specs.Prelude.{◌≡◌, true, not, ◌&&◌, ◌||◌, ◌++◌, ℕ, ◌+◌, ◌*◌, ◌/◌, ◌^◌, ◌<◌, ◌≤◌, length, take, drop, replicate};
ghost use Rattle.rows.specs.Lowest.{found, found_last, some};
ghost use Rattle.rows.specs.Count.{how_many};
ghost use Rattle.rows.specs.Row.{has, insert, erase, or_row, and_row, minus_row, or_part, only_first, below_word, Row};

pub fn test(row: &[u64], b: usize) -> bool
    requires { b / 64 < length row.now }
    ensures { result ≡ has row.now b }
{
    (row[b / 64] >> (b % 64)) & 1 == 1
}

pub fn set(row: &mut [u64], b: usize)
    requires { b / 64 < length row.old }
    ensures { row.new ≡ insert row.old b }
{
    row[b / 64] |= 1 << (b % 64);
}

// `set`, but every word is written, for a row that is read whole right after: one word written by itself would be slow to read as part of it.
pub fn insert(row: &mut [u64], b: usize)
    requires { b / 64 < length row.old }
    ensures { row.new ≡ insert row.old b }
{
    for (i, word) in row.iter_mut().enumerate() {
        *word |= ((i == b / 64) as u64) << (b % 64);
    }
}

pub fn remove(row: &mut [u64], b: usize)
    requires { b / 64 < length row.old }
    ensures { row.new ≡ erase row.old b }
{
    row[b / 64] &= !(1 << (b % 64));
}

pub fn clear(row: &mut [u64])
    ensures { row.new ≡ replicate (length row.old) 0 }
{
    row.fill(0);
}

fn word_below(n: usize, i: usize) -> u64
    ensures { result ≡ below_word n i }
{
    if i < n / 64 {
        u64::MAX
    } else if n / 64 < i {
        0
    } else {
        (1 << (n % 64)) - 1
    }
}

// The numbers below n.
pub fn fill_below(row: &mut [u64], n: usize)
    requires { n ≤ 64 * length row.old }
    ensures row { Row n (λ x. true) row.new }
    ensures row_len_unchanged { length row.new ≡ length row.old }
{
    for (i, word) in row.iter_mut().enumerate() {
        *word = word_below(n, i);
    }
}

// By index: `copy_from_slice` asks whether its slices overlap, which costs as much as a row of six words.
pub fn copy(dst: &mut [u64], src: &[u64])
    requires { length src.now ≤ length dst.old }
    ensures { dst.new ≡ src.now ++ drop (length src.now) dst.old }
{
    for (i, word) in src.iter().enumerate() {
        dst[i] = *word;
    }
}

// The members of `src` join those of `dst`. By index here and below: after a `zip` of `iter_mut` a proof knows nothing of the elements.
pub fn union(dst: &mut [u64], src: &[u64])
    requires { length src.now ≤ length dst.old }
    ensures { dst.new ≡ or_row dst.old src.now }
{
    for (i, word) in src.iter().enumerate() {
        dst[i] |= word;
    }
}

// Of `dst` only the members that `src` has too stay.
pub fn intersect(dst: &mut [u64], src: &[u64])
    requires { length src.now ≤ length dst.old }
    ensures { dst.new ≡ and_row dst.old src.now }
{
    for (i, word) in src.iter().enumerate() {
        dst[i] &= word;
    }
}

// What a, b and c all have.
pub fn meet(dst: &mut [u64], a: &[u64], b: &[u64], c: &[u64])
    requires { (length a.now ≡ length dst.old) × (length b.now ≡ length dst.old) × (length c.now ≡ length dst.old) }
    ensures { dst.new ≡ and_row (and_row a.now b.now) c.now }
{
    for (i, word) in a.iter().enumerate() {
        dst[i] = word & b[i] & c[i];
    }
}

// b leaves `dst` with the members of `src`. As in `insert`, no word is written by itself.
pub fn discard(dst: &mut [u64], src: &[u64], b: usize)
    requires { (length src.now ≤ length dst.old) × (b / 64 < length src.now) }
    ensures { dst.new ≡ minus_row dst.old (insert src.now b) }
{
    for (i, word) in src.iter().enumerate() {
        dst[i] &= !(word | ((i == b / 64) as u64) << (b % 64));
    }
}

// What both q and s have and r lacks joins `dst`.
pub fn join_outside(dst: &mut [u64], q: &[u64], s: &[u64], r: &[u64])
    requires { (length q.now ≡ length dst.old) × (length s.now ≡ length dst.old) × (length r.now ≡ length dst.old) }
    ensures dst_len_unchanged { length dst.new ≡ length dst.old }
    ensures by_index { (x : ℕ) → has dst.new x ≡ has dst.old x || (has q.now x && (has s.now x && not (has r.now x))) }
{
    for (i, word) in q.iter().enumerate() {
        dst[i] |= word & (s[i] & !r[i]);
    }
}

// The union with the row of `rows` that starts at word `at` and is as wide as `dst`.
pub fn union_at(dst: &mut [u64], rows: &[u64], at: usize)
    requires { at + length dst.old ≤ length rows.now }
    ensures { dst.new ≡ or_row dst.old (take (length dst.old) (drop at rows.now)) }
{
    let end = at + dst.len();
    union(dst, &rows[at..end]);
}

// The members of `src` join the row of `rows` that starts at word `at`.
pub fn union_into(rows: &mut [u64], at: usize, src: &[u64])
    requires { at + length src.now ≤ length rows.old }
    ensures { rows.new ≡ or_part rows.old at src.now }
{
    union(&mut rows[at..at + src.len()], src);
}

// The lowest member, if there is any. That its number fits is asked of the slice, here and below: a struct that held it would be made anew at each call.
pub fn lowest(row: &[u64]) -> Option<usize>
    requires { 64 * length row.now < 2 ^ 64 }
    ensures { result ≡ found (64 * length row.now) (has row.now) }
{
    let i = row.iter().position(|word| *word != 0)?;
    Some(64 * i + row[i].trailing_zeros() as usize)
}

// The highest member, if there is any.
pub fn highest(row: &[u64]) -> Option<usize>
    requires { 64 * length row.now < 2 ^ 64 }
    ensures { result ≡ found_last (64 * length row.now) (has row.now) }
{
    let i = row.iter().rposition(|word| *word != 0)?;
    Some(64 * i + (63 - row[i].leading_zeros() as usize))
}

// The lowest member of `a` that `b` lacks, if there is any. By index into `b`, whose end a `zip` would test at each word.
pub fn lowest_difference(a: &[u64], b: &[u64]) -> Option<usize>
    requires a_bound { 64 * length a.now < 2 ^ 64 }
    requires a_in_bounds { length a.now ≤ length b.now }
    ensures { result ≡ found (64 * length a.now) (only_first a.now b.now) }
{
    for (i, word) in a.iter().enumerate() {
        let lacking = word & !b[i];
        if lacking != 0 {
            return Some(64 * i + lacking.trailing_zeros() as usize);
        }
    }
    None
}

// How many members of `a` there are that `b` lacks: the ones of the row difference.
pub fn count_difference(a: &[u64], b: &[u64]) -> usize
    requires a_bound { 64 * length a.now < 2 ^ 64 }
    requires a_in_bounds { length a.now ≤ length b.now }
    ensures { result ≡ how_many (64 * length a.now) (only_first a.now b.now) }
{
    a.iter()
        .zip(b)
        .map(|(x, y)| (x & !y).count_ones() as usize)
        .sum()
}

// Whether `b` has every member of `a`.
pub fn is_subset(a: &[u64], b: &[u64]) -> bool
    requires a_bound { 64 * length a.now < 2 ^ 64 }
    requires a_in_bounds { length a.now ≤ length b.now }
    ensures { result ≡ not (some (64 * length a.now) (only_first a.now b.now)) }
{
    lowest_difference(a, b).is_none()
}
