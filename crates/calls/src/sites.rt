// Sites: what they hold, and what some of them lack.
ghost use Rattle.std.specs.Prelude.{◌≡◌, ℕ, ◌≤◌, ◌<◌, take, get_or};
ghost use Rattle.rows.specs.Lowest.{found};
ghost use Rattle.record.specs.Layout.{most_events};
ghost use Rattle.store.specs.Rules.{reached};
ghost use Rattle.calls.specs.Mirror.{OneMore};
ghost use Rattle.calls.specs.Lent.{kept_in, lacked_by_some};

use super::Kept;
use super::lent::Store;
use record::layout;

// Whether the counts reach a put's needs, for every site. By index: all eight are compared, as one, which is quicker than to stop at one as `all` does.
pub fn reaches(counts: [u16; 8], needs: [u16; 8]) -> bool
    ensures { result ≡ reached 8 (λ i. get_or needs i 0) (λ i. get_or counts i 0) }
{
    let mut all = true;
    for i in 0..8 {
        if counts[i] < needs[i] {
            all = false;
        }
    }
    all
}

// Every count is written, not one of them, so that all eight are kept as one; j is as wide as a count, so that they are compared as one too.
// By index: after an adapter of iter_mut a proof knows nothing of the elements.
pub(crate) fn with_held(counts: [u16; 8], j: u16) -> [u16; 8]
    requires j_bound { j < 8 }
    requires by_index { (i : ℕ) → get_or counts i 0 ≤ most_events }
    ensures { OneMore counts result j }
{
    let mut all = counts;
    for i in 0..8 {
        all[i] += (i as u16 == j) as u16;
    }
    all
}

impl Store {
    // By value: its eight counts are compared as one.
    pub(crate) fn site_at(&self, s: usize) -> Kept
        requires { s < 8 }
        ensures { result ≡ kept_in self.now s }
    {
        Kept {
            clock: self.clocks[s],
            counts: self.held[s],
        }
    }

    // What each of n sites knows. Not inlined: where it is, the compiler joins the rows of all eight sites before it asks how many there are.
    #[inline(never)]
    fn known_by(&self, n: usize) -> &[[u64; layout::ROW]]
        requires { n ≤ 8 }
        ensures { result.now ≡ take n self.now.known }
    {
        &self.known[..n]
    }

    // The lowest put that some of n sites lacks.
    pub fn first_lacked(&self, n: usize) -> Option<usize>
        requires { n ≤ 8 }
        ensures { result ≡ found most_events (lacked_by_some self.now n) }
    {
        let mut all = self.puts;
        for known in self.known_by(n) {
            rows::intersect(&mut all, known);
        }
        rows::lowest_difference(&self.puts, &all)
    }
}
