// Close of trading: every copy that is outstanding is delivered.
ghost use Rattle.std.specs.Prelude.{◌≡◌, ◌≤◌};
ghost use Rattle.record.specs.Terms.{Terms};
ghost use Rattle.calls.specs.Lent.{Stands, Stand};
ghost use Rattle.calls.specs.Done.{Closes};

use super::lent::Store;

impl Store {
    // It takes the lowest put that some site lacks, of a row difference, until there is none; its needs are met at every site that lacks it. The result is how
    // many copies there were.
    pub fn close(&mut self, n: usize) -> u32
        requires n_bound { n ≤ 8 }
        requires stand { Stand n self.old }
        ensures closes { (t : Terms) → Stands n t self.old → Closes n t self.old self.new result }
        ensures same_events { (self.new.sees ≡ self.old.sees) × (self.new.events ≡ self.old.events) }
    {
        let mut copies: u32 = 0;
        while let Some(lacked) = self.first_lacked(n) {
            for t in 0..n {
                if !rows::test(&self.known[t], lacked) {
                    self.deliver(t, lacked);
                    copies += 1;
                }
            }
        }
        copies
    }
}
