// The put w comes to site s: a delivery, and each copy of a close.
ghost use Rattle.std.specs.Prelude.{◌≡◌};
ghost use Rattle.calls.specs.Done.{Copyable, Came};

use super::lent::{Store, Word};
use super::sites;

impl Store {
    // The site knows the put and all that it saw from now on, and holds one more of its site.
    pub fn deliver(&mut self, s: usize, w: usize)
        requires { Copyable self.old s w }
        ensures came { Came self.old self.new s w }
        ensures same_events { (self.new.sees ≡ self.old.sees) × (self.new.events ≡ self.old.events) }
    {
        let word = Word(self.events[w]);
        let o = word.object() as usize;
        self.cells[s][o] = self.cells[s][o].max(word.0);
        let saw = &self.sees[w];
        let known = &mut self.known[s];
        rows::union(known, saw);
        rows::set(known, w);
        let site = self.site_at(s);
        self.clocks[s] = site.clock.max(word.stamp());
        self.held[s] = sites::with_held(site.counts, word.site());
    }
}
