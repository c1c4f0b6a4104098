// What the answers to replayed cases are made of, printed to a writer.
#![tactic(auto)]

pub mod answer;
