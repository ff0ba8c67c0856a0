// Lists of predicates: those of the models, and the first broken predicate of a list.
ghost use Rattle.std.specs.Prelude.{◌≡◌, ◌≤◌};
ghost use Rattle.consistency.specs.Predicates.{numbered};
ghost use Rattle.consistency.specs.Models.{list_of, first_broken};
ghost use Rattle.judge.specs.Judgments.{said_by};
ghost use Rattle.judge.specs.Lists.{numbers_of};

use super::prepared::{Passed, Room};
use consistency::Predicate::{self, *};
use consistency::{Break, Outcome};

// The predicates in the paper's order.
pub const PREDICATES: [Predicate; 13] = [
    RVal,
    SingleOrder,
    RealTime,
    RealTimeWrites,
    MonotonicReads,
    ReadYourWrites,
    MonotonicWrites,
    WritesFollowReads,
    Pram,
    CausalVisibility,
    CausalArbitration,
    PerObjectPram,
    PerObjectSingleOrder,
];

// The predicates of each model in the order in which they are asked.
const MODELS: [&[Predicate]; 13] = [
    &[SingleOrder, RealTime, RVal],
    &[SingleOrder, RealTimeWrites, RVal],
    &[SingleOrder, Pram, RVal],
    &[CausalVisibility, CausalArbitration, RVal],
    &[CausalVisibility, CausalArbitration, RealTime, RVal],
    &[PerObjectSingleOrder, Pram, RVal],
    &[PerObjectSingleOrder, PerObjectPram, RVal],
    &[Pram],
    &[MonotonicReads],
    &[ReadYourWrites],
    &[MonotonicWrites],
    &[WritesFollowReads],
    &[PerObjectPram],
];

// A model's list.
pub fn of_model(m: usize) -> &'static [Predicate]
    requires { (1 ≤ m) × (m ≤ 13) }
    ensures { numbers_of result.now ≡ list_of m }
{
    MODELS[m - 1]
}

// The predicate of a number. It is no TryFrom, since in its range it cannot fail.
pub fn by_number(k: usize) -> Predicate
    requires { (1 ≤ k) × (k ≤ 13) }
    ensures { result ≡ numbered k }
{
    PREDICATES[k - 1]
}

// The first broken predicate of a list, with its pair.
pub fn first_broken(list: &[Predicate], passed: &Passed) -> Outcome
    ensures { result ≡ first_broken (numbers_of list.now) (said_by passed.now.record.now) }
{
    let mut room = Room::EMPTY;
    room.prepare(passed);
    let evidence = room.evidence(passed.seen);
    for p in list {
        if let Some((first, second)) = evidence.judge(*p) {
            return Some(Break {
                predicate: *p as usize + 1,
                first,
                second,
            });
        }
    }
    None
}
