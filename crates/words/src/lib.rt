#![tactic(auto)]

// Words of n bits in a u32: sums and rotations, and masks.
pub mod arithmetic;
pub mod mask;
