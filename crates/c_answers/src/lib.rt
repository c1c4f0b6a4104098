#![tactic(auto)]

// The calls' answers as C has them (include/tiedraw.h). What they are is in specs/, and what a refusal leaves in proofs/.
// The refusal stands as a number beside the values, since the C interface has structs and no Result.
use tsc::{MOST_WORDS, TABLE_SIZE};

// What a draw answers, tiedraw_word: 0 and the word, or the refusal and 0.
#[repr(C)]
#[derive(Clone, Copy)]
pub struct DrawnWord {
    pub word: u32,
    pub refusal: u8,
}

// What a pick answers, tiedraw_choice: 0, the shovel, how many ties there were and how many words were taken; or the refusal and zeros.
#[repr(C)]
#[derive(Clone, Copy)]
pub struct Choice {
    pub shovel: u16,
    pub ties: u8,
    pub taken: u8,
    pub refusal: u8,
}

// What margin answers, tiedraw_margin_answer: 0, the change and the changed pick; or the refusal and zeros.
#[repr(C)]
#[derive(Clone, Copy)]
pub struct MarginAnswer {
    pub seconds: u32,
    pub changed: u16,
    pub shovel: u16,
    pub raised: u8,
    pub ties: u8,
    pub taken: u8,
    pub refusal: u8,
}

// What the writer answers, tiedraw_written: 0 and the length, or the refusal and 0.
#[repr(C)]
#[derive(Clone, Copy)]
pub struct WrittenLength {
    pub length: usize,
    pub refusal: u8,
}

// The eight values of a card, tiedraw_card: those of crate tsc, in the order of the header.
#[repr(C)]
#[derive(Clone, Copy)]
pub struct CardValues {
    pub words: u8,
    pub width: u8,
    pub odd_power: u8,
    pub even_power: u8,
    pub filter: u8,
    pub sum_term: u8,
    pub constant: u32,
    pub table: [u8; TABLE_SIZE],
}

// What the reader answers, tiedraw_reading: 0 and the values, or the refusal and zeros.
#[repr(C)]
#[derive(Clone, Copy)]
pub struct CardReading {
    pub card: CardValues,
    pub refusal: u8,
}

// The fields of a record, tiedraw_record: beside each that may lack a flag, 1 where it is given; else the flag and the number are 0.
#[repr(C)]
#[derive(Clone, Copy)]
pub struct RecordValues {
    pub state: [u32; MOST_WORDS],
    pub truck: u16,
    pub shovel: u16,
    pub ties_given: u8,
    pub ties: u8,
    pub taken_given: u8,
    pub taken: u8,
    pub state_given: u8,
    pub words: u8,
}

// What the desk is answered, tiedraw_record_reading: 0 and the fields, or the refusal and zeros.
#[repr(C)]
#[derive(Clone, Copy)]
pub struct RecordAnswer {
    pub values: RecordValues,
    pub refusal: u8,
}

// What a cab is answered, tiedraw_order_answer: 0 and the shovel, or the refusal and 0.
#[repr(C)]
#[derive(Clone, Copy)]
pub struct OrderAnswer {
    pub shovel: u16,
    pub refusal: u8,
}

// What a count of bits answers, tiedraw_bit_counts: 0 and the four integers, or the refusal and zeros.
#[repr(C)]
#[derive(Clone, Copy)]
pub struct BitCountsAnswer {
    pub balance: i32,
    pub forward: u32,
    pub backward: u32,
    pub runs: u32,
    pub refusal: u8,
}
