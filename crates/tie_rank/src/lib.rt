#![tactic(auto)]

// Ranks of the ties in a list, and the tie of a rank. Ties and ranks are defined in crate ties.
pub mod rank;
