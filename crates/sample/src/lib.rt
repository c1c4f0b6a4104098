#![tactic(auto)]

// Ranks among ties by rejection sampling, for states by value, and refusal 18. What is drawn is defined in crate samples.
pub mod draw;
pub mod many;
pub mod tsc1;
