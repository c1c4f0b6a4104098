#![tactic(auto)]

// What a count of bits answers, made into the struct that C sees, which crate c_answers defines.
pub mod counted;
