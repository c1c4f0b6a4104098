// Lists of numbers in a field.
ghost use Rattle.std.specs.Prelude.{◌≡◌, ℕ, ◌≤◌, Some, option_map, ◌%◌, length, map, take};
ghost use Rattle.case_numbers.specs.Numbers.{base_of, fold, numeral};
ghost use Rattle.case_fields.specs.Text.{parts, comma};
ghost use Rattle.case_fields.specs.Lists.{empty, held, with_number, is_nothing, numbers_in, pairs, pair_value, bytes_in};

use case_numbers::number;
use std::marker::Model;

// The most numbers of a list. 600 bytes have room for the longest card of document 02, and for cards that are too long.
pub const ROOM: usize = 600;

// The largest numbers of 8, of 16 and of 32 bits, all as what a list is read with.
pub const BYTE: u32 = u8::MAX as u32;

pub const HALF: u32 = u16::MAX as u32;

pub const WORD: u32 = u32::MAX;

// A list of numbers: as many of the words as count, and zeros past them. A program has fixed memory, and what reads a list can't fail for want of more.
// Not the kit's ArrayVec, which is not Copy and whose clone can fail: a state is lent as a copy, and compared with what was handed over.
#[derive(Clone, Copy)]
pub struct Numbers<const SIZE: usize> {
    words: [u32; SIZE],
    count: usize,
}

impl<const SIZE: usize> Model for Numbers<SIZE> {
    ghost use Rattle.std.specs.Prelude.{◌≤◌};
    ghost use Rattle.case_fields.specs.Lists.{Held};

    ghost Value = { Held };

    ghost view = { λ n. record { words = n.words; count = n.count } };

    ghost invariant = { λ n. n.count ≤ SIZE };

    ghost inverse = { λ h. record { words = h.words; count = h.count } };
}

impl<const SIZE: usize> Numbers<SIZE> {
    // An empty list.
    pub fn new() -> Self
        ensures { result ≡ empty SIZE }
    {
        Numbers {
            words: [0; SIZE],
            count: 0,
        }
    }

    // How many there are.
    pub fn len(&self) -> usize
        ensures value { result ≡ self.now.count }
        ensures bound { result ≤ SIZE }
    {
        self.count
    }

    // The numbers.
    pub fn as_slice(&self) -> &[u32]
        ensures { result.now ≡ take self.now.count self.now.words }
    {
        &self.words[..self.count]
    }

    // The numbers, to be changed.
    pub fn as_mut_slice(&mut self) -> &mut [u32]
        ensures { result.now ≡ take self.old.count self.old.words }
    {
        &mut self.words[..self.count]
    }

    // A list with a number put to it; none where it is full or the number above the most.
    fn with(self, number: u32, most: u32) -> Option<Self>
        ensures { result ≡ with_number most (Some self.entry) (Some number) }
    {
        let mut words = self.words;
        let count = put(&mut words, self.count, number, most)?;
        Some(Numbers { words, count })
    }
}

impl Numbers<ROOM> {
    // Each word.
    pub fn words(&self) -> [u32; ROOM]
        ensures { result ≡ self.now.words }
    {
        self.words
    }

    // The low 16 bits of each word.
    pub fn halves(&self) -> [u16; ROOM]
        ensures { result ≡ map (λ x. x % 65536) self.now.words }
    {
        // By index: `map` hands the array on by value, and takes it apart word by word.
        let mut halves = [0; ROOM];
        for k in 0..ROOM {
            halves[k] = (self.words[k] % 0x1_0000) as u16;
        }
        halves
    }

    // The low 8 bits of each word.
    pub fn bytes(&self) -> [u8; ROOM]
        ensures { result ≡ map (λ x. x % 256) self.now.words }
    {
        let mut bytes = [0; ROOM];
        for k in 0..ROOM {
            bytes[k] = (self.words[k] % 0x100) as u8;
        }
        bytes
    }
}

// A list with a number put to it, where both can be read.
pub fn with_number<const SIZE: usize>(
    list: Option<Numbers<SIZE>>,
    number: Option<u32>,
    most: u32,
) -> Option<Numbers<SIZE>>
    ensures { result ≡ with_number most list.entry number }
{
    list?.with(number?, most)
}

// Whether a field is the sign of an empty list.
pub fn is_nothing(field: &[u8]) -> bool
    ensures { result ≡ is_nothing field.now }
{
    field == b"-".as_slice()
}

// A number put behind the first `count` words, and how many there are then; none where the words are full or the number is above the most.
fn put(words: &mut [u32], count: usize, number: u32, most: u32) -> Option<usize>
    ensures value { with_number most (Some (held words.old count)) (Some number) ≡ option_map (held words.new) result }
    ensures bound { (n : ℕ) → result ≡ Some n → n ≤ length words.new }
{
    if most < number || words.len() <= count {
        return None;
    }
    words[count] = number;
    Some(count + 1)
}

// The numbers of a field put into words that are lent, from the first on, and how many there are. The words stay where they are: a fold hands its list on by value,
// and a strip of 64 KiB would be copied for each of its words.
fn read_into(words: &mut [u32], field: &[u8], hex: bool, most: u32) -> Option<usize>
    ensures value { fold (with_number most) (Some (held words.old 0)) (map (numeral (base_of hex)) (parts comma field.now)) ≡ option_map (held words.new) result }
    ensures bound { (n : ℕ) → result ≡ Some n → n ≤ length words.new }
{
    let mut count = 0;
    for part in field.split(|byte| *byte == b',') {
        count = put(words, count, number::number_of(part, hex)?, most)?;
    }
    Some(count)
}

// Numbers up to the most, commas between. Whether they are in hex is a bool, as the definition numbers_in takes it.
pub fn numbers_of<const SIZE: usize>(field: &[u8], hex: bool, most: u32) -> Option<Numbers<SIZE>>
    ensures { result ≡ numbers_in hex most SIZE field.now }
{
    let mut words = [0; SIZE];
    let count = if is_nothing(field) {
        0
    } else {
        read_into(&mut words, field, hex, most)?
    };
    Some(Numbers { words, count })
}

// The byte of two hex digits.
fn pair_of(pair: &[u8]) -> Option<u32>
    ensures { result ≡ pair_value pair.now }
{
    if pair.len() == 2 {
        number::number_of(pair, true)
    } else {
        None
    }
}

// The bytes of a field put into words that are lent, from the first on, and how many there are.
fn read_pairs_into(words: &mut [u32], field: &[u8]) -> Option<usize>
    ensures value { fold (with_number 255) (Some (held words.old 0)) (map pair_value (pairs field.now)) ≡ option_map (held words.new) result }
    ensures bound { (n : ℕ) → result ≡ Some n → n ≤ length words.new }
{
    let mut count = 0;
    for pair in field.chunks(2) {
        count = put(words, count, pair_of(pair)?, BYTE)?;
    }
    Some(count)
}

// Bytes as pairs of hex digits.
pub fn bytes_of<const SIZE: usize>(field: &[u8]) -> Option<Numbers<SIZE>>
    ensures { result ≡ bytes_in SIZE field.now }
{
    if field.is_empty() {
        return None;
    }
    let mut words = [0; SIZE];
    let count = if is_nothing(field) {
        0
    } else {
        read_pairs_into(&mut words, field)?
    };
    Some(Numbers { words, count })
}
