// Cases on a card and a state: step, back, draw, words, pick, margin and recpick, from the line to the answer.
#![tactic(auto)]

pub mod calls;
mod recorded;
pub mod states;
