// The two orders, in specs/, and that they keep the laws of an order, in proofs/.
#![tactic(auto)]
