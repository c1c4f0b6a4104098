#![tactic(auto)]

// The generator: step, step back and draw on lent slices, for any caller. On values they are in crate stepping; what they answer is defined in crate draws.
pub mod call;
