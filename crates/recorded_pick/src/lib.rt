#![tactic(auto)]

// Recorded picks: a pick that leaves a record of a tie. What it answers is defined in crate recorded_picks.
pub mod call;
mod refusal;
