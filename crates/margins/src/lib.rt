#![tactic(auto)]

// What margin answers, on the definitions. What that means is in specs/, and what holds of it in proofs/.

// The least change of one shovel's time that sends the truck elsewhere, and the changed pick.
#[derive(Clone, Copy)]
pub struct Nearest {
    pub seconds: u32,
    pub changed: u16,
    pub raised: bool,
    pub shovel: u16,
    pub ties: u8,
    pub taken: u8,
}
