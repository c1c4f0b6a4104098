// The shovels of a list but one: their least time, and the ties among them.
#![tactic(auto)]

pub mod others;
