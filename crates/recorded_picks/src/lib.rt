#![tactic(auto)]

// What a recorded pick answers and leaves, on the definitions: in specs/. What holds of it is in proofs/.
