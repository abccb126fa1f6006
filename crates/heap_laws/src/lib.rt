// The machine that the binary heap is, in specs/, and what it keeps, in proofs/.
#![tactic(auto)]
