// Cases on the map: mappick and within, from the line to the answer.
#![tactic(auto)]

mod calls;
pub mod lines;
mod read;
