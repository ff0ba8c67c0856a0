// The numbers that hosts are given for a break and for a refusal. What a call counts, it answers as it is.
#![tactic(auto)]

ghost use Rattle.std.specs.Prelude.{◌≡◌, ◌^◌, ◌<◌};
ghost use Rattle.packed.specs.Packed.{packed_break, packed_refusal};

// The parts of a number are below the first of these; the numbers of breaks are from the second on, those of refusals from the third on.
pub const PLACES: u64 = 1024;

pub const BROKEN_FROM: u64 = 1048576;

pub const REFUSED_FROM: u64 = 2097152;

// A break at the pair (a, b). It and a refusal are packed in a line each: a function of the first number of both would be no shorter.
pub fn broken(a: usize, b: usize) -> u64
    requires { packed_break a b < 2 ^ 32 }
    ensures { result ≡ packed_break a b }
{
    BROKEN_FROM + PLACES * a as u64 + b as u64
}

// A refusal by a question's number, at a place.
pub fn refusal(number: usize, place: usize) -> u64
    requires { packed_refusal number place < 2 ^ 32 }
    ensures { result ≡ packed_refusal number place }
{
    REFUSED_FROM + PLACES * number as u64 + place as u64
}
