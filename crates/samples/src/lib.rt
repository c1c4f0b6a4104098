#![tactic(auto)]

// Ranks among ties by rejection sampling, as document 02 defines them, and that they are fair.
// There is no code here: the crate is its definitions (specs/) and laws (proofs/).
