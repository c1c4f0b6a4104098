#![tactic(auto)]

// What step, step back and draw answer and leave, on the definitions. What that means is in specs/, and what holds of it in proofs/.
