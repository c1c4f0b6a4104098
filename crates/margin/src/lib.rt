#![tactic(auto)]

// Margins: how near a pick was to another shovel. What margin answers is defined in crate margins.
pub mod call;
mod changed;
mod chosen;
