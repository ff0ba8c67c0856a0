// All thirteen predicates over tables that are filled once.
ghost use Rattle.std.specs.Prelude.{◌≡◌, ◌^◌, ◌<◌};
ghost use Rattle.judge.specs.Judgments.{said_by};
ghost use Rattle.judge.specs.Lists.{packed_verdict, packed_verdicts};

use super::lists::PREDICATES;
use super::prepared::{Passed, Room};
use consistency::Verdict;

// A verdict as a host's number.
fn pack(v: Verdict) -> u64
    requires { packed_verdict v < 2 ^ 32 }
    ensures { result ≡ packed_verdict v }
{
    match v {
        None => 0,
        Some((a, b)) => packed::broken(a, b),
    }
}

// The numbers of the thirteen verdicts, in the paper's order.
pub fn verdicts(passed: &Passed) -> [u64; 13]
    ensures { result ≡ packed_verdicts 13 (said_by passed.now.record.now) }
{
    let mut room = Room::EMPTY;
    room.prepare(passed);
    let evidence = room.evidence(passed.seen);
    let mut answers = [0u64; 13];
    for (k, p) in PREDICATES.iter().enumerate() {
        answers[k] = pack(evidence.judge(*p));
    }
    answers
}
