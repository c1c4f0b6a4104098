// Rows of draws in answers.
#![tactic(auto)]

pub mod row;
