// Text to words: the lines of a script, the words of a line, and the numbers that words write.
#![tactic(auto)]

pub mod lines;
pub mod number;
pub mod reason;
pub mod statement;
pub mod words;
