// The machine that the checked queue is, lists of calls on it and what is promised of them, in specs/, and their proofs, in proofs/.
#![tactic(auto)]

pub mod call;
