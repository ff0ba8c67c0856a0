// The first pair that breaks a predicate, from tables of rows.
#![tactic(auto)]

pub mod inclusion;
pub mod order;
mod ordered;
pub mod reads;
