// The table of a checked queue: the keys that wait, and their bounds.
#![tactic(auto)]

mod rows;
pub mod table;
