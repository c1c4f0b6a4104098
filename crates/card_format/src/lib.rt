#![tactic(auto)]

// Cards (document 01, The card): bytes that set up a generator. There is no code here: what bytes mean, which are accepted and what the writer writes is in
// specs/, and what holds of that in proofs/. The code is in crates card_read, card, card_encode and card_write.
