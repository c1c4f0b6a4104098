// Bits of a strip of words counted for callers. What is answered is defined in crate bit_counts.
#![tactic(auto)]

pub mod call;
