// The bits of a strip of words, counted for the tests of NIST SP 800-22, on the definitions. What that means is in specs/, and what holds of it in proofs/.
#![tactic(auto)]

// The four integers (document 02, Eight).
#[derive(Clone, Copy)]
pub struct Counts {
    // ones minus zeros
    pub balance: i32,
    // the largest distance from zero of the running sum, read forward
    pub forward: u32,
    // and read backward
    pub backward: u32,
    // the number of runs
    pub runs: u32,
}
