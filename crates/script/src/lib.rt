// Text to sections.
#![tactic(auto)]

pub mod card;
pub mod cells;
pub mod section;
