#![tactic(auto)]

// The step of TSC-1 by the gate formulas of document 002 on whole words, and which card is TSC-1's (document 02, Nine).
pub mod step;
pub mod tsc1;
