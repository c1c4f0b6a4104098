#![tactic(auto)]

// Maps of the numbers below N of which some entries are fixed, and when these alone keep them from being a single cycle; there is no code in it.
