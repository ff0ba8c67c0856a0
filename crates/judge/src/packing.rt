// A judgment as a host's number.
ghost use Rattle.std.specs.Prelude.{◌≡◌, ◌^◌, ◌<◌};
ghost use Rattle.judge.specs.Judgments.{packed_judgment};

use super::{Judgment, Unjudged};

// 0 met; 1,048,576 + 1,024 × a + b broken; 2,097,152 + 1,024 × number + place refused. It is no From: both types are of other crates, and the
// number has to fit.
pub fn pack(j: Judgment) -> u64
    requires { packed_judgment j < 2 ^ 32 }
    ensures { result ≡ packed_judgment j }
{
    match j {
        Ok(None) => 0,
        Ok(Some(found)) => packed::broken(found.first, found.second),
        Err(Unjudged::NoSuchNumber) => packed::refusal(2, 0),
        Err(Unjudged::Refused(r)) => packed::refusal(r.number(), r.place()),
    }
}
