#![tactic(auto)]

// What desk and cab are answered, made into the structs that C sees, which crate c_answers defines.
pub mod recorded;
