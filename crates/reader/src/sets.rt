// Questions 9 and 10, asked while the visible sets are taken from the record's bytes into rows of the work slice.
ghost use Rattle.std.specs.Prelude.{◌≡◌, ◌++◌, ◌+◌, ◌*◌, ◌-◌, ◌≤◌, length, drop, replicate, None};
ghost use Rattle.rows.specs.Lowest.{found};
ghost use Rattle.rows.specs.Octets.{words};
ghost use Rattle.record.specs.Layout.{edition_of, row_words, work_words};
ghost use Rattle.record.specs.History.{history_of, vis};
ghost use Rattle.record.specs.Questions.{number_of, wrong_set, set_questions};
ghost use Rattle.record.specs.Words.{set_rows, work_after};
ghost use Rattle.record.specs.Encode.{blocks_for};

use super::framed::Framed;
use reach::rings;
use record::{Reading, Refusal, layout};
use rows::graph::Relation;
use rows::octets;

// A set of k words, from byte `at` on, as a row: zeros behind them.
fn load_row(row: &mut [u64], s: &[u8], at: usize, k: usize)
    requires { (k ≤ length row.old) × (at + 8 * k ≤ length s.now) }
    ensures { row.new ≡ words k s.now at ++ replicate (length row.old - k) 0 }
{
    for (i, word) in row.iter_mut().enumerate() {
        *word = if i < k {
            octets::u64_at(s, at + 8 * i)
        } else {
            0
        };
    }
}

impl<'a> Framed<'a> {
    // Loads the sets up to the lowest event's that has an event from n on, or its own: that event, if there is any. The first is asked of
    // the set's words, the second of one bit in its bytes.
    fn load_sets(&self, table: &mut [u64]) -> Option<usize>
        requires n_in_bounds { 512 * blocks_for (edition_of self.now.bytes.now) self.now.count ≤ length self.now.bytes.now }
        requires n_bound { self.now.count ≤ (edition_of self.now.bytes.now).events }
        requires work_words_in_bounds { work_words ≤ length table.old }
        ensures value { result ≡ found self.now.count (wrong_set (edition_of self.now.bytes.now).row self.now.count (vis (history_of (edition_of self.now.bytes.now) self.now.bytes.now))) }
        ensures rest { (length table.new ≡ length table.old) × (drop work_words table.new ≡ drop work_words table.old) }
        ensures loaded { result ≡ None → table.new ≡ set_rows (edition_of self.now.bytes.now) self.now.bytes.now self.now.count ++ drop (self.now.count * row_words) table.old }
    {
        let mut below = [0u64; layout::ROW];
        rows::fill_below(&mut below, self.count);
        let mut slot = 512;
        for e in 0..self.count {
            let at = e * layout::ROW;
            let row = &mut table[at..at + layout::ROW];
            load_row(row, self.bytes, slot + 32, self.edition.row);
            if !rows::is_subset(row, &below) || octets::test(self.bytes, slot + 32, e) {
                return Some(e);
            }
            slot = layout::next_slot(self.edition, slot);
        }
        None
    }

    // Questions 9 and 10. The table comes to have the sets, and zero where one gets a no.
    pub fn ask_sets(&self, table: &mut [u64]) -> Reading
        requires n_in_bounds { 512 * blocks_for (edition_of self.now.bytes.now) self.now.count ≤ length self.now.bytes.now }
        requires n_bound { self.now.count ≤ (edition_of self.now.bytes.now).events }
        requires work_words_in_bounds { work_words ≤ length table.old }
        ensures value { result ≡ set_questions (edition_of self.now.bytes.now) self.now.count (vis (history_of (edition_of self.now.bytes.now) self.now.bytes.now)) }
        ensures table_after { table.new ≡ work_after (edition_of self.now.bytes.now) (number_of result) self.now.bytes.now table.old }
    {
        if let Some(event) = self.load_sets(table) {
            table[..layout::WORK].fill(0);
            return Err(Refusal::WrongSet(event));
        }
        let relation = Relation {
            words: table,
            count: self.count,
            width: layout::ROW,
        };
        if let Some(event) = rings::lowest_on_ring(&relation) {
            table[..layout::WORK].fill(0);
            return Err(Refusal::OnRing(event));
        }
        table[self.count * layout::ROW..layout::WORK].fill(0);
        Ok(())
    }
}
