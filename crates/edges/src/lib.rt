#![tactic(auto)]

// The proved table of edges: specs/Cases.antt lists them, proofs/EdgesHold.antt has the computed test.
