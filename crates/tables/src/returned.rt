// The events that returned, gone through once.
ghost use Rattle.std.specs.Prelude.{◌≡◌, true, ◌+◌, ◌<◌, ◌≤◌, length, get_or, IfSome, IfNone};
ghost use Rattle.record.specs.Words.{return_in};
ghost use Rattle.tables.specs.Sweep.{Rising};

use events::heads::Heads;

// Events that returned, by return. So many of them were passed.
#[derive(Drop)]
pub(crate) struct Returned<'a, 'b> {
    pub heads: Heads<'a>,
    pub order: &'b [u16],
    pub passed: usize,
    pub ghost rising: { Rising heads.words.now true order.now (length order.now) },
    pub ghost within: { passed ≤ length order.now },
}

impl Returned<'_, '_> {
    // The next, if it returned before the time t.
    pub fn next_before(&mut self, t: u64) -> Option<usize>
        ensures same { (self.new.heads ≡ self.old.heads) × (self.new.order ≡ self.old.order) }
        ensures some { IfSome result (λ a. (self.old.passed < length self.old.order.now) × (a ≡ get_or self.old.order.now self.old.passed 0) × (return_in self.old.heads.words.now a < t) × (self.new.passed ≡ self.old.passed + 1)) }
        ensures none { IfNone result ((self.new.passed ≡ self.old.passed) × (self.old.passed < length self.old.order.now → t ≤ return_in self.old.heads.words.now (get_or self.old.order.now self.old.passed 0))) }
    {
        let a = *self.order.get(self.passed)? as usize;
        if t <= self.heads.return_time(a) {
            return None;
        }
        self.passed += 1;
        Some(a)
    }
}
