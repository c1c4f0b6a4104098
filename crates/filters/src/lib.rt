#![tactic(auto)]

// The filters, by which a state gives its output word. They are defined in crate tsc.
pub mod filter;
