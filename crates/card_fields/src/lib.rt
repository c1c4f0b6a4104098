#![tactic(auto)]

// The fields of a card one by one: what they allow, and a number read from its bytes; and words against a card's width. The table's code is in crate card_table.
pub mod field;
pub mod number;
pub mod width;
