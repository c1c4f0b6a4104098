#![tactic(auto)]

// All columns of a state put through a power of the table at once, for many steps of one card: a multiplexer tree on whole words. No branch and no index
// depends on the state or the selector.
pub mod leaves;
pub mod tree;
