// The checked memory.
#![tactic(auto)]

mod cell;
pub mod checked;
mod clock;
