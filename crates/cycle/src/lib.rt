#![tactic(auto)]

// Mathematics that the other crates rest on, and nothing of TSC: finite sums, digits, counting, ranks by a key, lists written over, single cycles, skew products.
// There is no code here: the crate is its definitions (specs/) and laws (proofs/).
