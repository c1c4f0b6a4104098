// The bits of a strip of words counted in one pass, and put on a page as they come. What is counted is defined in crate bit_counts.
#![tactic(auto)]

pub mod count;
mod tally;
