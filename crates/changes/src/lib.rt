#![tactic(auto)]

// Changes of one shovel's time, on the definitions. What they are is in specs/, and what holds of them in proofs/.

// The greatest time.
pub const MOST_TIME: u32 = 4294967295;

// The time of the shovel at a place raised, or else lowered, by some seconds.
#[derive(Clone, Copy)]
pub struct Change {
    pub place: usize,
    pub raised: bool,
    pub seconds: u32,
}
