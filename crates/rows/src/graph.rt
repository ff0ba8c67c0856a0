// A relation between events as a table of rows: row b has the events that are related to b.
ghost use Rattle.std.specs.Prelude.{◌≡◌, ◌<◌};
ghost use Rattle.rows.specs.Row.{row_at};
ghost use Rattle.rows.specs.Relation.{Graph};

// A row for each of `count` events, each of `width` words, with members below `count` alone.
#[derive(Clone, Copy)]
pub struct Relation<'a> {
    pub words: &'a [u64],
    pub count: usize,
    pub width: usize,
    pub ghost graph: { Graph words.now count width },
}

impl<'a> Relation<'a> {
    // The events that are related to b.
    pub fn row(&self, b: usize) -> &'a [u64]
        requires { b < self.now.count }
        ensures { result.now ≡ row_at self.now.words.now self.now.width b }
    {
        crate::table_rows::row(self.words, self.width, b)
    }
}
