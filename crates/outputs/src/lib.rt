#![tactic(auto)]

// The output words of states by value: of one step, and of many; and those of TSC-1.
pub mod fill;
pub mod next;
pub mod row;
pub mod tsc1;
