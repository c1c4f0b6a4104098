#![tactic(auto)]

// The selector, which a step works out of a state's words. It is defined in crate tsc.
pub mod selector;
