// The shovels within a radius, listed by distance and then by number. What is listed is defined in crate nearby.
#![tactic(auto)]

pub mod call;
mod keys;
mod list;
