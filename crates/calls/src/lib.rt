// One call of a script: how it is read, what refuses it, and what it does to the store.
#![tactic(auto)]

pub mod call;
pub mod close;
pub mod deliver;
pub mod lent;
pub mod make;
pub mod refuse;
pub mod script;
pub mod sites;

// What a site keeps beside its cells and its known events: its clock, and the count of held puts from each site.
#[derive(Clone, Copy)]
pub struct Kept {
    pub clock: u64,
    pub counts: [u16; 8],
}
