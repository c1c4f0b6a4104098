#![tactic(auto)]

// The types that a generator is made of. What they mean is in specs/, and what holds of them in proofs/.

// The fewest words of a state.
pub const FEWEST_WORDS: u32 = 2;

// The most words of a state, and the entries of a table for that many.
pub const MOST_WORDS: usize = 8;

pub const TABLE_SIZE: usize = 1 << MOST_WORDS;

// m of a card that does not give it: the one m whose table may be absent.
pub const DEFAULT_WORDS: u32 = 4;

// C of TSC-1 (document 002, 13), and of a card that does not give it.
pub const TSC1_CONSTANT: u32 = 0x1248_8421;

// The values of a card (document 01, The card): what a generator is set up by.
#[derive(Clone, Copy)]
pub struct Card {
    // m, the words of a state
    pub words: u8,
    // n, the bits of a word
    pub width: u8,
    // S: the first 2^m entries are used, the others are 0
    pub table: [u8; TABLE_SIZE],
    // a, how often the table is applied to a column whose selector bit is 1
    pub odd_power: u8,
    // b, and where it is 0
    pub even_power: u8,
    // C
    pub constant: u32,
    // 1 or 2
    pub filter: u8,
    // 1 where the selector has the term 2s, else 0
    pub sum_term: u8,
}

// A state: the first m words are used, x0 first, and the others are 0.
#[derive(Clone, Copy)]
pub struct State {
    pub words: [u32; MOST_WORDS],
}
