// Cases on a strip of words, from the line to the answer.
#![tactic(auto)]

pub mod strips;
