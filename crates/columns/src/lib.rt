#![tactic(auto)]

// Columns of a state (document 002, 2), and powers of the table that they are put through (12).
pub mod column;
pub mod few;
pub mod power;
pub mod replace;
