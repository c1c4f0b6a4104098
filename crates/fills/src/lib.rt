#![tactic(auto)]

// What a fill answers and leaves, on the definitions. What that means is in specs/, and what holds of it in proofs/.
