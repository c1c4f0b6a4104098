#![tactic(auto)]

// The least change of one shovel's time that sends a truck elsewhere, found among three changes a shovel. What it is, is defined in crate changes.
mod attempt;
pub mod search;
