#![tactic(auto)]

// The calls' answers made into the structs that C sees, which crate c_answers defines.
pub mod answer;
pub mod nearest;
