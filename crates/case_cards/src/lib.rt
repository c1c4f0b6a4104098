// Cases on cards: check, read, write and the bad places of a table, from the line to the answer.
#![tactic(auto)]

mod calls;
pub mod cards;
