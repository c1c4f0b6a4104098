// A card's values as bytes, field by field. What that means is defined in crate card_format.
#![tactic(auto)]

pub mod put;
pub mod values;
