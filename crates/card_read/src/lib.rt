// Reading cards. What that means is defined in crate card_format.
#![tactic(auto)]

pub mod read;
