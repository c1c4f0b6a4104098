#![tactic(auto)]

// Ties between shovels, as document 01 defines them, and that the order of the list makes no difference.
// There is no code here: the crate is its definitions (specs/) and laws (proofs/).
