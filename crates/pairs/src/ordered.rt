// Events with a table of ar.
ghost use Rattle.std.specs.Prelude.{◌≡◌, ◌*◌, ◌<◌, ◌≤◌, length};
ghost use Rattle.rows.specs.Row.{row_at};
ghost use Rattle.rows.specs.Relation.{Table};
ghost use Rattle.consistency.specs.Relations.{ar};
ghost use Rattle.events.specs.Given.{fields_of};

use events::Events;
use rows::table_rows;

#[derive(Clone, Copy)]
pub struct Ordered<'a, const W: usize> {
    pub events: Events<'a, W>,
    pub ars: &'a [u64],
    pub ghost size: { events.count * W ≤ length ars.now },
    pub ghost table: { Table events.count W (ar (fields_of events.heads.words.now)) ars.now },
}

impl<'a, const W: usize> Ordered<'a, W> {
    // The events before b.
    pub fn before(&self, b: usize) -> &'a [u64]
        requires { b < self.now.events.count }
        ensures { result.now ≡ row_at self.now.ars.now W b }
    {
        table_rows::row(self.ars, W, b)
    }
}
