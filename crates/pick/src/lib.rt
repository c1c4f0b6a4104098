#![tactic(auto)]

// Picks: which of several shovels a truck is sent to. What a pick answers is defined in crate picks.
pub mod call;
pub mod listing;
pub mod ranks;
