// The bad bit of a table, found and listed. What is answered is defined in crate diagnoses.
#![tactic(auto)]

pub mod call;
mod least;
mod pair;
mod shortest;
