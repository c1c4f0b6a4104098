// Writing cards, and cards written again. What that means is defined in crate card_format.
#![tactic(auto)]

pub mod rewrite;
pub mod write;
