#![tactic(auto)]

// Records of ties: what a recorded pick leaves for the desk and for the cab. What their bytes mean is in specs/, and what holds of that in proofs/. The code is
// in crate record.
use tsc::State;

// The fields of a record. One that it may lack is None then, and never told as 0.
#[derive(Clone, Copy)]
pub struct Record {
    pub truck: u16,
    pub shovel: u16,
    pub ties: Option<u8>,
    pub taken: Option<u8>,
    // how many words the state has, where the record has it: a field of its own, as definition record_of and theorem read_absent speak of it, and the struct for C
    pub words: Option<u8>,
    // the state before the pick: zeros past its words
    pub state: State,
}
