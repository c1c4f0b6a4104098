// What the reader of a card calls: the table read, the end of the card, and the card of the values.
#![tactic(auto)]

pub mod end;
pub mod values;
