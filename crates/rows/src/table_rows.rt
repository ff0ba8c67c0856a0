// Rows of a table, lent, and changed where they stand by a row of another slice. Each is a line: one over a closure, or a struct of table and width made
// at each call, would be no shorter.
ghost use Rattle.std.specs.Prelude.{◌≡◌, ◌+◌, ◌*◌, ◌≤◌, length};
ghost use Rattle.rows.specs.Row.{row_at, or_row, and_row, RowPut};

// Row b of a table of rows of w words.
pub fn row(table: &[u64], w: usize, b: usize) -> &[u64]
    requires { b * w + w ≤ length table.now }
    ensures { result.now ≡ row_at table.now w b }
{
    &table[b * w..b * w + w]
}

// Row c of `to` becomes row s of `from`.
pub fn put_row(to: &mut [u64], w: usize, c: usize, from: &[u64], s: usize)
    requires { (c * w + w ≤ length to.old) × (s * w + w ≤ length from.now) }
    ensures { RowPut w c (row_at from.now w s) to.old to.new }
{
    super::copy(&mut to[c * w..c * w + w], row(from, w, s));
}

// Of row c of `to` only what row s of `from` has too stays.
pub fn cut_row(to: &mut [u64], w: usize, c: usize, from: &[u64], s: usize)
    requires { (c * w + w ≤ length to.old) × (s * w + w ≤ length from.now) }
    ensures { RowPut w c (and_row (row_at to.old w c) (row_at from.now w s)) to.old to.new }
{
    super::intersect(&mut to[c * w..c * w + w], row(from, w, s));
}

// Row s of `from` joins row c of `to`.
pub fn join_row(to: &mut [u64], w: usize, c: usize, from: &[u64], s: usize)
    requires { (c * w + w ≤ length to.old) × (s * w + w ≤ length from.now) }
    ensures { RowPut w c (or_row (row_at to.old w c) (row_at from.now w s)) to.old to.new }
{
    super::union(&mut to[c * w..c * w + w], row(from, w, s));
}
