// Numbers in the text of a case, by their digits. What digits are read as is in specs/.
#![tactic(auto)]

pub mod number;
