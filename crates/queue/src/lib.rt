// The checked queue.
#![tactic(auto)]

pub mod checked;
