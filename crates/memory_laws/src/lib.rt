// The machine that the checked memory is, what it keeps, and what its runs keep over any store: in specs/ and proofs/.
#![tactic(auto)]

pub mod call;
