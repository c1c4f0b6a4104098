#![tactic(auto)]

// The table of a card: read from its bytes, its own tests, and followed from 0.
pub mod table;
