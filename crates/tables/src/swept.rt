// What a sweep took in, in rows as wide as those of its events.
ghost use Rattle.std.specs.Prelude.{◌≡◌, Bool, ◌||◌, ℕ, ◌+◌, ◌*◌, ◌<◌, ◌≤◌, eqb, length};
ghost use Rattle.rows.specs.Row.{row_at};
ghost use Rattle.tables.specs.Sweep.{Swept};

use events::Events;
use rows::table_rows;

// The row of all events comes first, then those of the events at each site, and then what the reads among these see.
const SITES: usize = 1;

const SEEN: usize = 9;

// 17 rows of W words, at most eight. `room` says what the type does, as a proof knows no array's length in what a call left.
#[derive(Drop)]
pub(crate) struct SweptRows<const W: usize> {
    pub rows: [u64; 136],
    pub ghost room: { length rows ≡ 136 },
    pub ghost narrow: { W ≤ 8 },
}

impl<const W: usize> SweptRows<W> {
    fn row(&self, k: usize) -> &[u64]
        requires { k < 17 }
        ensures row { result.now ≡ row_at self.now.rows W k }
        ensures len { length result.now ≡ W }
    {
        table_rows::row(&self.rows, W, k)
    }

    pub fn all(&self) -> &[u64]
        ensures row { result.now ≡ row_at self.now.rows W 0 }
        ensures len { length result.now ≡ W }
    {
        self.row(0)
    }

    pub fn at_site(&self, s: usize) -> &[u64]
        requires { s < 8 }
        ensures row { result.now ≡ row_at self.now.rows W (1 + s) }
        ensures len { length result.now ≡ W }
    {
        self.row(SITES + s)
    }

    pub fn seen_at(&self, s: usize) -> &[u64]
        requires { s < 8 }
        ensures row { result.now ≡ row_at self.now.rows W (9 + s) }
        ensures len { length result.now ≡ W }
    {
        self.row(SEEN + s)
    }

    // Event a returned: it joins the row of all and its site's, and where it is a read, what it sees joins what was seen there.
    pub fn take_in(&mut self, events: &Events<W>, a: usize)
        requires { a < events.now.count }
        ensures { let e = events.now in (f : ℕ → Bool) → Swept e.heads.words.now e.seen.now e.count W f self.old.rows → Swept e.heads.words.now e.seen.now e.count W (λ x. eqb a x || f x) self.new.rows }
    {
        let s = events.heads.site(a) as usize;
        rows::set(&mut self.rows, a);
        rows::set(&mut self.rows, 64 * ((SITES + s) * W) + a);
        if !events.heads.is_write(a) {
            rows::union_into(&mut self.rows, (SEEN + s) * W, events.seen_by(a));
        }
    }
}
