#![tactic(auto)]

// Spans of a strip of words: what is refused of them, refusal 17. When that is told is defined in specs/.
pub mod check;
