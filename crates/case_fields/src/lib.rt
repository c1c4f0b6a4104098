// A case as text: a line's fields, one blank apart, and the lists of numbers in a field. What they are read as is in specs/.
#![tactic(auto)]

pub mod line;
pub mod list;
