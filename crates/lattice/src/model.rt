// The thirteen models, by number.
ghost use Rattle.std.specs.Prelude.{◌≤◌};

use std::fmt;

const NAMES: [&str; 13] = [
    "linearizable",
    "regular",
    "sequential",
    "causal",
    "real-time causal",
    "processor",
    "per-object sequential",
    "Pram",
    "monotonic reads",
    "read your writes",
    "monotonic writes",
    "writes follow reads",
    "slow memory",
];

#[derive(Clone, Copy)]
pub struct Model {
    pub number: usize,
    pub ghost known: { (1 ≤ number) × (number ≤ 13) },
}

impl fmt::Display for Model {
    fn fmt<W: fmt::Write>(&self, f: &mut fmt::Formatter<W>) -> fmt::Result {
        write!(f, "{} {}", self.number, NAMES[self.number - 1])
    }
}
