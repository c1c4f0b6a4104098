#![tactic(auto)]

// What a pick by the map answers and leaves is defined in specs/; its laws are in proofs/. The answer is the timed pick's, picks::Pick.
