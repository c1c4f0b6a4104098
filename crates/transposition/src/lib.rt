#![tactic(auto)]

// All columns of a state of up to eight words put through a power of the table at once: eight columns at a time, by transposing 8 by 8 bits. For cards of
// more words than minterms and multiplexers are quick for. No branch depends on the state or the selector.
pub mod bytes;
pub mod matrix;
pub mod replace;
