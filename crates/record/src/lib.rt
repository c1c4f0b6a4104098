// Records of ties: read for the desk, and for a cab. What they mean is defined in crate records.
#![tactic(auto)]

pub mod order;
pub mod read;
