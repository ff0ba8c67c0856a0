// Events that reach themselves.
ghost use Rattle.std.specs.Prelude.{◌≡◌, refl, true, ℕ, ◌<◌, ◌≤◌, length};
ghost use Rattle.std.proofs.Common.{◌∙◌};
ghost use Rattle.rows.specs.Lowest.{found};
ghost use Rattle.rows.specs.Row.{has};
ghost use Rattle.rows.specs.Relation.{reaches, related};
ghost use Rattle.reach.specs.Walks.{Settled};

use crate::walk;
use crate::walk::Settling;
use rows::graph::Relation;

// Whether one or more steps lead from b to b, by a search backwards: `done` has the events whose rows were taken in.
fn reaches_itself(relation: &Relation, b: usize) -> bool
    requires b_lt_n { b < relation.now.count }
    requires width { relation.now.width ≤ 8 }
    ensures { result ≡ reaches relation.now.count (related relation.now.words.now relation.now.width) b b }
{
    let mut found = [0u64; 8];
    let mut done = [0u64; 8];
    let found = &mut found[..relation.width];
    let done = &mut done[..relation.width];
    rows::union(found, relation.row(b));
    while let Some(a) = rows::lowest_difference(found, done) {
        rows::set(done, a);
        rows::union(found, relation.row(a));
    }
    rows::test(found, b)
}

// The events of a relation that are settled: they are on no ring, and none leads to them.
#[derive(Drop)]
struct Marking<'a> {
    relation: &'a Relation<'a>,
    settled: [u64; 8],
}

impl Settling for Marking<'_> {
    ghost events = { λ s. s.relation.now.count };

    ghost is_settled = { λ s. has s.settled };

    ghost Comes = { λ s t. (t.relation.now ≡ s.relation.now) × (t.relation.now.width ≤ 8) × Settled t.relation.now.words.now t.relation.now.count t.relation.now.width t.settled × ((x : ℕ) → has s.settled x ≡ true → has t.settled x ≡ true) };

    fn count(&self) -> usize {
        self.relation.count
    }

    fn settle(&mut self, e: usize) -> Option<usize> {
        let unsettled = rows::lowest_difference(self.relation.row(e), &self.settled);
        if unsettled.is_none() {
            rows::set(&mut self.settled, e);
        }
        unsettled
    }

    ghost joins = { λ s t u e f. (f.0 ∙ e.0, f.1, f.2, λ x p. f.3 x (e.3 x p)) };

    ghost sound = { λ s t e. (refl, e.1, e.2, λ x p. p) };

    ghost counts = { λ s t e. rw e.0 refl };

    ghost stays = { λ s t e. e.3 };
}

// The lowest event that reaches itself, if there is any. `settled` has events on no ring, which are passed over.
fn lowest_unsettled(relation: &Relation, settled: &[u64]) -> Option<usize>
    requires settled { Settled relation.now.words.now relation.now.count relation.now.width settled.now }
    requires lens { (relation.now.width ≤ 8) × (relation.now.width ≤ length settled.now) }
    ensures { result ≡ found relation.now.count (λ a. reaches relation.now.count (related relation.now.words.now relation.now.width) a a) }
{
    for a in 0..relation.count {
        if !rows::test(settled, a) && reaches_itself(relation, a) {
            return Some(a);
        }
    }
    None
}

// The lowest event that reaches itself, if there is any.
pub fn lowest_on_ring(relation: &Relation) -> Option<usize>
    requires { relation.now.width ≤ 8 }
    ensures { result ≡ found relation.now.count (λ a. reaches relation.now.count (related relation.now.words.now relation.now.width) a a) }
{
    let mut marking = Marking {
        relation,
        settled: [0; 8],
    };
    if walk::settle_all(&mut marking) {
        return None;
    }
    lowest_unsettled(relation, &marking.settled)
}
