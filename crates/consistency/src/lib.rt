// Which records are consistent: the relations between events, the thirteen predicates and the thirteen models in specs/, and what follows from these in proofs/. The code has their types alone.
#![tactic(auto)]

// A predicate, in the paper's order.
#[derive(Clone, Copy)]
pub enum Predicate {
    RVal,
    SingleOrder,
    RealTime,
    RealTimeWrites,
    MonotonicReads,
    ReadYourWrites,
    MonotonicWrites,
    WritesFollowReads,
    Pram,
    CausalVisibility,
    CausalArbitration,
    PerObjectPram,
    PerObjectSingleOrder,
}

// The first pair that breaks a predicate, if it is not met.
pub type Verdict = Option<(usize, usize)>;

// The last write that a read sees, if it sees any.
pub type Last = Option<usize>;

// A broken predicate, by its number, and the first pair that breaks it.
#[derive(Clone, Copy)]
pub struct Break {
    pub predicate: usize,
    pub first: usize,
    pub second: usize,
}

// The first broken predicate of a list, if not all are met.
pub type Outcome = Option<Break>;

// How the break of a predicate is told: by a chain of events, by the one in the middle, or by its pair alone.
#[derive(Clone, Copy)]
pub enum Telling {
    ByChain,
    ByMiddle,
    ByPair,
}
