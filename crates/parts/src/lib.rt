// What the parts of the board have in common: the faults that a call can end in, how a part breaks, and what a store, a tally, an order and a queue are.
// The meanings that the contracts cite stand in specs/. Whoever makes a card reads `store` and specs/Meaning; whoever makes a queue
// reads `queue` and specs/Queues.
#![tactic(auto)]

pub mod fault;
pub mod latch;
pub mod order;
pub mod queue;
pub mod store;
pub mod tally;
