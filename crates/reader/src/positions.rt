// Question 8: positions below n, and distinct.
ghost use Rattle.std.specs.Prelude.{◌≡◌, ◌*◌, ◌≤◌, length};
ghost use Rattle.rows.specs.Lowest.{found};
ghost use Rattle.record.specs.Layout.{edition_of};
ghost use Rattle.record.specs.History.{history_of};
ghost use Rattle.record.specs.Encode.{blocks_for};
ghost use Rattle.record.specs.Questions.{wrong_position};

use super::framed::Framed;
use record::layout;
use rows::octets;

impl<'a> Framed<'a> {
    // The lowest event whose position is too large or a lower event's, if there is any.
    pub fn wrong_position(&self) -> Option<usize>
        requires n_in_bounds { 512 * blocks_for (edition_of self.now.bytes.now) self.now.count ≤ length self.now.bytes.now }
        requires n_bound { self.now.count ≤ (edition_of self.now.bytes.now).events }
        ensures { result ≡ found self.now.count (wrong_position (history_of (edition_of self.now.bytes.now) self.now.bytes.now)) }
    {
        let mut taken = [0u64; layout::ROW];
        let mut at = 512;
        for e in 0..self.count {
            let position = usize::from(octets::u16_at(self.bytes, at + 10));
            if self.count <= position || rows::test(&taken, position) {
                return Some(e);
            }
            rows::set(&mut taken, position);
            at = layout::next_slot(self.edition, at);
        }
        None
    }
}
