// The converter: a record of any edition, written as any.
#![tactic(auto)]

pub mod moving;
pub mod packing;

ghost use Rattle.std.specs.Prelude.{◌≡◌, length};
ghost use Rattle.converter.specs.Conversions.{conversion, target_after};
ghost use Rattle.converter.specs.Means.{Converts};
ghost use Rattle.converter.specs.declared.Unconverted.TheVariants.{Refused};

use record::{Refusal, layout};

// What refused a converting call.
#[derive(Clone, Copy)]
pub enum Unconverted {
    NoSuchEdition,
    CannotStand,
    ShortTarget,
    Refused(Refusal),
}

impl From<Refusal> for Unconverted {
    ghost from_gives = { λ r e. e ≡ Refused r };

    fn from(r: Refusal) -> Unconverted {
        Unconverted::Refused(r)
    }
}

// How many bytes were written.
pub type Conversion = Result<usize, Unconverted>;

// Writes the record s as one of the edition of that number, 1 to 3, over the front of the target buffer.
pub fn convert(edition: usize, s: &[u8], target: &mut [u8]) -> Conversion
    ensures value { result ≡ conversion edition (length target.old) s.now }
    ensures target_after { target.new ≡ target_after result edition s.now target.old }
    ensures converts { Converts edition s.now target.old result target.new }
{
    if edition < 1 || 3 < edition {
        return Err(Unconverted::NoSuchEdition);
    }
    let mut work = [0u64; layout::WORK];
    reader::ask(s, &mut work)?;
    moving::move_to(edition, s, target)
}
