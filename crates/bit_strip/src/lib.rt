// Strips of words whose bits are to be counted: refusals 22 to 24. When they are told is defined in specs/.
#![tactic(auto)]

pub mod check;
