// What the sections of a script have in common: settings, alterations and calls.
#![tactic(auto)]

pub mod calls;
pub mod kind;
pub mod plan;
