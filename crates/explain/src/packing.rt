// An explanation as a host's number.
ghost use Rattle.std.specs.Prelude.{◌≡◌, ◌^◌, ◌<◌};
ghost use Rattle.explain.specs.Explanations.{packed_explanation};

use super::{Explanation, Unexplained};
use judge::Unjudged;

// The entries written; 2,097,152 + 1,024 × number + place refused. It is no From: C reads the
// number, and it has to fit.
pub fn pack(e: Explanation) -> u64
    requires { packed_explanation e < 2 ^ 32 }
    ensures { result ≡ packed_explanation e }
{
    match e {
        Ok(count) => count as u64,
        Err(Unexplained::Unjudged(Unjudged::NoSuchNumber)) => packed::refusal(2, 0),
        Err(Unexplained::Unjudged(Unjudged::Refused(r))) => packed::refusal(r.number(), r.place()),
        Err(Unexplained::FewEntries) => packed::refusal(41, 0),
        Err(Unexplained::NoBreak) => packed::refusal(42, 0),
    }
}
