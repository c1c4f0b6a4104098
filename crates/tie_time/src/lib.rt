#![tactic(auto)]

// The least time of a list, and how many shovels have it. Ties are defined in crate ties.
pub mod time;
