#![tactic(auto)]

// Lent state words: refusals 10 and 11, a state by value of them, and one stored over them.
pub mod lent;
