// The host library: what C and Rust call to judge, to explain and to rehearse, on numbers and slices. Nothing is decided here.
#![tactic(auto)]

pub mod explaining;
pub mod judging;
pub mod rehearsing;
