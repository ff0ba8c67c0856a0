// A conversion as a host's number.
ghost use Rattle.std.specs.Prelude.{◌≡◌, ◌^◌, ◌<◌};
ghost use Rattle.converter.specs.Conversions.{packed_conversion};

use super::{Conversion, Unconverted};

// The length written; 2,097,152 + 1,024 × number + place refused. It is no From: C reads the
// number, and it has to fit.
pub fn pack(c: Conversion) -> u64
    requires { packed_conversion c < 2 ^ 32 }
    ensures { result ≡ packed_conversion c }
{
    match c {
        Ok(length) => length as u64,
        Err(Unconverted::NoSuchEdition) => packed::refusal(43, 0),
        Err(Unconverted::CannotStand) => packed::refusal(44, 0),
        Err(Unconverted::ShortTarget) => packed::refusal(45, 0),
        Err(Unconverted::Refused(r)) => packed::refusal(r.number(), r.place()),
    }
}
