#![tactic(auto)]

// The whole claim: the user's three demands as named statements (specs/) and a proof of each from the theorems below (proofs/). There is no code here.
