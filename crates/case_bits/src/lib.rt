// Cases on the bits of a strip, from the line to the answer.
#![tactic(auto)]

pub mod bits;
mod calls;
mod strip;
