// Values to text: what is printed of the sections of a script.
#![tactic(auto)]

pub mod card;
pub mod fault;
pub mod out;
pub mod shown;
#[cfg(test)]
mod tests;
