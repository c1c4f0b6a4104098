// Cases on records: desk and cab, from the line to the answer.
#![tactic(auto)]

mod calls;
pub mod lines;
