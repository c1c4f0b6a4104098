// Which of two changes comes first. The order is defined in crate changes.
#![tactic(auto)]

pub mod order;
