#![tactic(auto)]

// What every call on a card and a state begins with.
pub mod check;
