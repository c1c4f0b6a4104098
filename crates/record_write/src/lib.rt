// Records of ties, written, and the room that they need. What they mean is defined in crate records.
#![tactic(auto)]

pub mod room;
pub mod write;
