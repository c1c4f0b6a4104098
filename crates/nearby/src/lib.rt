// The shovels within a radius. What they are is in specs/, and what holds of them in proofs/.
#![tactic(auto)]

use tie_list::check::MOST_SHOVELS;

// What is answered, as C has it too: numbers by distance and then by number, as many as the count says, and zeros past them; or the refusal.
#[repr(C)]
#[derive(Clone, Copy)]
pub struct WithinAnswer {
    pub shovels: [u16; MOST_SHOVELS],
    pub count: u8,
    pub refusal: u8,
}
