#![tactic(auto)]

// Step and step back of states by value: the step all columns at once, the step back column by column.
pub mod back;
pub mod step;
