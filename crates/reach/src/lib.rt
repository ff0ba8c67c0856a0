// What is reached in a relation held as a table of rows: row b has the events with a step to b.
#![tactic(auto)]

pub mod closure;
pub mod rings;
mod walk;
