#![tactic(auto)]

// Least periods of the words that cards draw (document 02, Six).
// There is no code here: the crate is its definitions (specs/) and theorems (proofs/).
