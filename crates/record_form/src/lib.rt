// The form of a record: whether bytes are one, and where its fields stand. What it is is defined in crate records.
#![tactic(auto)]

pub mod form;
