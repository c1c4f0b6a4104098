#![tactic(auto)]

// The places of a table that are shown where it is not a single cycle. Which they are is in specs/, and what holds of them in proofs/.
use tsc::TABLE_SIZE;

// The most places that are shown: half of the largest table.
pub const MOST_PLACES: usize = TABLE_SIZE / 2;

// What is answered: places ascending, as many as the count says, and zeros past them; or the refusal. C has this struct, so its fields stay as they are.
#[repr(C)]
#[derive(Clone, Copy)]
pub struct BadPlaces {
    pub places: [u8; MOST_PLACES],
    pub count: u8,
    pub refusal: u8,
}
