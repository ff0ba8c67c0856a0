// The events of a record that passed, as the judge's code is given them. The reader loads their words, and the judge reads from them.
#![tactic(auto)]

pub mod heads;
pub mod terms;

ghost use Rattle.std.specs.Prelude.{◌≡◌, ◌<◌};
ghost use Rattle.rows.specs.Row.{row_at};
ghost use Rattle.events.specs.Given.{Given, group_rows, Groups};

use heads::Heads;
use record::layout;

// The rows of groups: one for each object, then the writes, the reads, and all events.
pub const WRITES: usize = layout::OBJECTS;

pub const READS: usize = layout::OBJECTS + 1;

pub const EVERY: usize = layout::OBJECTS + 2;

pub const GROUPS: usize = layout::OBJECTS + 3;

// The heads of so many events, and rows of W words: what each sees, and the groups.
#[derive(Clone, Copy)]
pub struct Events<'a, const W: usize> {
    pub count: usize,
    pub heads: Heads<'a>,
    pub seen: &'a [u64],
    pub groups: &'a [u64],
    pub ghost given: { Given count W heads.words.now seen.now },
    pub ghost grouped: { Groups count W heads.words.now groups.now },
}

impl<'a, const W: usize> Events<'a, W> {
    // What event e sees.
    pub fn seen_by(&self, e: usize) -> &'a [u64]
        requires { e < self.now.count }
        ensures { result.now ≡ row_at self.now.seen.now W e }
    {
        &self.seen[e * W..e * W + W]
    }

    // The events of group k.
    pub fn group(&self, k: usize) -> &'a [u64]
        requires { k < group_rows }
        ensures { result.now ≡ row_at self.now.groups.now W k }
    {
        &self.groups[k * W..k * W + W]
    }
}
