// A done put or get: the event that it becomes, what it changes at its site, and its answer.
ghost use Rattle.std.specs.Prelude.{◌≡◌, ◌∷◌, ◌++◌, ◌≤◌, ◌<◌, ◌^◌, get_or, replicate};
ghost use Rattle.record.specs.Layout.{most_events};
ghost use Rattle.record.specs.Encode.{little_bytes};
ghost use Rattle.record.specs.Terms.{value_or0};
ghost use Rattle.store.specs.Calls.{put, get};
ghost use Rattle.store.specs.Rules.{is_found};
ghost use Rattle.calls.specs.Mirror.{held_of};
ghost use Rattle.calls.specs.Done.{Entered, Makable, Made};

use super::lent::{Store, Word};
use super::sites;

// The answer of a done put or get, with the value that it found: its eight bytes as one number, which stays in a register.
fn answer(event: usize, found: Option<u32>) -> u64
    requires { event < 2 ^ 16 }
    ensures { little_bytes 8 result ≡ 0 ∷ is_found (held_of found) ∷ (little_bytes 2 event ++ little_bytes 4 (value_or0 (held_of found))) }
{
    let value = found.unwrap_or(0);
    0x100 * found.is_some() as u64 + 0x1_0000 * event as u64 + 0x1_0000_0000 * value as u64
}

// The answer of a close, which delivered so many copies. Its bytes stand as those of a get that found a value.
pub fn closed(copies: u32) -> u64
    ensures { little_bytes 8 result ≡ 0 ∷ 1 ∷ (replicate 2 0 ++ little_bytes 4 copies) }
{
    answer(0, Some(copies))
}

impl Store {
    // The next event, with its word, at site s, whose clock it raises: it sees what the site knows, and the site knows it from now on; it needs what the site
    // holds. The result is its number.
    fn enter(&mut self, s: usize, word: Word) -> usize
        requires { (s < 8) × (self.old.count < most_events) × (get_or self.old.clocks s 0 ≤ most_events) }
        ensures entered { Entered s word.0 self.old self.new }
        ensures number { result ≡ self.old.count }
        ensures rest { (self.new.puts ≡ self.old.puts) × (self.new.cells ≡ self.old.cells) × (self.new.held ≡ self.old.held) }
    {
        let k = self.count;
        self.events[k] = word.0;
        self.sees[k] = self.known[s];
        rows::set(&mut self.known[s], k);
        self.needs[k] = self.held[s];
        self.clocks[s] += 1;
        self.count += 1;
        k
    }

    pub fn put(&mut self, site: u8, object: u8, value: u32) -> u64
        requires { Makable self.old site object }
        ensures { Made (put site object value) self.old self.new (little_bytes 8 result) }
    {
        let s = site as usize;
        let word = Word::made(self.clocks[s], site, object, Some(value));
        let k = self.enter(s, word);
        rows::set(&mut self.puts, k);
        self.cells[s][object as usize] = word.0;
        self.held[s] = sites::with_held(self.held[s], site as u16);
        answer(k, None)
    }

    // It finds the object's cell, which is 0 where there is no value.
    pub fn get(&mut self, site: u8, object: u8) -> u64
        requires { Makable self.old site object }
        ensures { Made (get site object) self.old self.new (little_bytes 8 result) }
    {
        let s = site as usize;
        let cell = self.cells[s][object as usize];
        let found = (cell != 0).then_some(Word(cell).value());
        let word = Word::made(self.clocks[s], site, object, found);
        let k = self.enter(s, word);
        answer(k, found)
    }
}
