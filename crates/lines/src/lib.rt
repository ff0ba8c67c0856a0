// What the programs share: the line of text that a reading has, and how they read their input.
#![tactic(auto)]

pub mod input;

use record::Reading;
use std::fmt;

// How a record was read: `passed`, or `refused` with the question's number and place.
#[derive(Clone, Copy)]
pub struct Line(pub Reading);

impl fmt::Display for Line {
    fn fmt<W: fmt::Write>(&self, f: &mut fmt::Formatter<W>) -> fmt::Result {
        match self.0 {
            Ok(()) => f.write_str("passed"),
            Err(refusal) => write!(f, "refused {} {}", refusal.number(), refusal.place()),
        }
    }
}
