// Checking cards, with and without their values. What that means is defined in crate card_format.
#![tactic(auto)]

pub mod check;
