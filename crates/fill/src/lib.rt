#![tactic(auto)]

// Fills: many words of the orbit by one call, into a lent strip. What they answer is defined in crate fills.
pub mod call;
