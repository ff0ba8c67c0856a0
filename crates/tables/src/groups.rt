// Rows of events by object and by kind, from heads, their count and the rows' width: an `Events` has these rows already.
ghost use Rattle.std.specs.Prelude.{◌≡◌, true, not, ℕ, ◌+◌, ◌*◌, ◌^◌, ◌<◌, ◌≤◌, eqb, length, replicate};
ghost use Rattle.rows.specs.Row.{row_at, Row};
ghost use Rattle.record.specs.Layout.{object_count};
ghost use Rattle.record.specs.Words.{object_in, is_write_in};
ghost use Rattle.events.specs.Given.{group_rows, Groups};

use events::heads::Heads;
use rows::table_rows;

// Row o of g, of w words and empty, comes to have the events on object o.
fn fill_objects(heads: &Heads, n: usize, w: usize, g: &mut [u64])
    requires n_in_bounds { (4 * n ≤ length heads.now.words.now) × (n ≤ 64 * w) × (64 * length g.old < 2 ^ 64) }
    requires g_value { g.old ≡ replicate (object_count * w) 0 }
    ensures by_index { (o : ℕ) → o < object_count → Row n (λ e. eqb (object_in heads.now.words.now e) o) (row_at g.new w o) }
    ensures g_len_unchanged { length g.new ≡ length g.old }
{
    for e in 0..n {
        let o = heads.object(e) as usize;
        rows::set(g, 64 * (o * w) + e);
    }
}

// The writes, into a row that is empty.
fn fill_writes(heads: &Heads, n: usize, row: &mut [u64])
    requires n_in_bounds { (4 * n ≤ length heads.now.words.now) × (n ≤ 64 * length row.old) }
    requires row_value { row.old ≡ replicate (length row.old) 0 }
    ensures row { Row n (is_write_in heads.now.words.now) row.new }
    ensures row_len_unchanged { length row.new ≡ length row.old }
{
    for e in 0..n {
        if heads.is_write(e) {
            rows::set(row, e);
        }
    }
}

// The writes, the reads and all events become rows 0, 1 and 2 of g.
fn fill_kinds(heads: &Heads, n: usize, w: usize, g: &mut [u64])
    requires n_in_bounds { (4 * n ≤ length heads.now.words.now) × (n ≤ 64 * w) × (w ≤ 8) }
    requires g_len { length g.old ≡ 3 * w }
    ensures row { Row n (is_write_in heads.now.words.now) (row_at g.new w 0) }
    ensures row_2 { Row n (λ e. not (is_write_in heads.now.words.now e)) (row_at g.new w 1) }
    ensures row_3 { Row n (λ e. true) (row_at g.new w 2) }
    ensures g_len_unchanged { length g.new ≡ length g.old }
{
    let mut writes = [0u64; 8];
    let mut every = [0u64; 8];
    let mut reads = [0u64; 8];
    fill_writes(heads, n, &mut writes);
    rows::fill_below(&mut every, n);
    rows::join_outside(&mut reads, &every, &every, &writes);
    table_rows::put_row(g, w, 0, &writes, 0);
    table_rows::put_row(g, w, 1, &reads, 0);
    table_rows::put_row(g, w, 2, &every, 0);
}

// The events of each object at rows 0 to 255, then the writes, the reads and all events, into rows that are empty.
pub fn fill(heads: &Heads, n: usize, w: usize, g: &mut [u64])
    requires n_in_bounds { (4 * n ≤ length heads.now.words.now) × (n ≤ 64 * w) × (w ≤ 8) × (64 * length g.old < 2 ^ 64) }
    requires g_value { g.old ≡ replicate (group_rows * w) 0 }
    ensures groups { Groups n w heads.now.words.now g.new }
    ensures g_len_unchanged { length g.new ≡ length g.old }
{
    let objects = events::WRITES * w;
    let end = events::GROUPS * w;
    fill_objects(heads, n, w, &mut g[..objects]);
    fill_kinds(heads, n, w, &mut g[objects..end]);
}
