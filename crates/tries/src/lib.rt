#![tactic(auto)]

// Ranks by words that are drawn beforehand, once for many counts of ties. How a rank is drawn is defined in crate samples.
pub mod row;
