// The binary heap.
#![tactic(auto)]

pub mod binary;
mod cells;
mod walk;
