#![tactic(auto)]

// Picks by the map: which of several shovels a truck is sent to when times are missing. What such a pick answers is defined in crate map_picks.
pub mod call;
mod nearest;
mod refusal;
