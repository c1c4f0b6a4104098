#![tactic(auto)]

// All columns of a state put through a power of the table at once, by operations on whole words: entry by entry, for a single step.
pub mod minterm;
pub mod replace;
