// The fields of a card (document 01, The card), by their bits: field k of a card of m words. ROWS and ABSENT speak of the fields of one number; what they hold
// at the table's bit is not used.
ghost use Rattle.std.specs.Prelude.{◌≡◌, ◌≢◌, [], ◌∷◌, ◌^◌, ◌<◌, ◌≤◌, leb};
ghost use Rattle.tsc.specs.Constants.{most_words};
ghost use Rattle.card_format.specs.Fields.{field, field_count, table_bit, extent, allowed, same};

use card_table::table::entries;
use tsc::{DEFAULT_WORDS, FEWEST_WORDS, MOST_WORDS, TSC1_CONSTANT};

pub const FIELDS: usize = 8;

// Numbers and no enum: a field's number is its bit in the map and the index of its value, and loops count through it.
pub const WORDS: usize = 0;

pub const WIDTH: usize = 1;

pub const TABLE: usize = 2;

pub const ODD_POWER: usize = 3;

pub const EVEN_POWER: usize = 4;

pub const CONSTANT: usize = 5;

pub const FILTER: usize = 6;

pub const SUM_TERM: usize = 7;

// The bytes of a field's number, and its bounds.
#[derive(Clone, Copy)]
struct Row {
    size: usize,
    least: u32,
    most: u32,
}

const ROWS: [Row; FIELDS] = [
    Row {
        size: 1,
        least: FEWEST_WORDS,
        most: MOST_WORDS as u32,
    },
    Row {
        size: 1,
        least: 2,
        most: 32,
    },
    Row {
        size: 1,
        least: 0,
        most: 0,
    },
    Row {
        size: 1,
        least: 0,
        most: 255,
    },
    Row {
        size: 1,
        least: 0,
        most: 255,
    },
    Row {
        size: 4,
        least: 0,
        most: 0xffff_ffff,
    },
    Row {
        size: 1,
        least: 1,
        most: 2,
    },
    Row {
        size: 1,
        least: 0,
        most: 1,
    },
];

// An array by itself: the reader's numbers begin as a copy of it.
pub const ABSENT: [u32; FIELDS] = [DEFAULT_WORDS, 32, 0, 1, 2, TSC1_CONSTANT, 1, 1];

// The bytes of field k. Callers have m from a words field that passed its check, or from its absent value.
pub fn extent_of(k: usize, m: u32) -> usize
    requires { (k < field_count) × (m ≤ most_words) }
    ensures { result ≡ extent (field m k) }
{
    if k == TABLE {
        return entries(m);
    }
    ROWS[k].size
}

// Whether x is allowed as the number of field k. Callers have asked for the table before, here and below.
pub fn number_allowed(k: usize, m: u32, x: u32) -> bool
    requires { (k < field_count) × (k ≢ table_bit) }
    ensures { result ≡ allowed (field m k) (x ∷ []) }
{
    let row = ROWS[k];
    row.least <= x && x <= row.most
}

// Whether x is the absent value of field k.
pub fn is_absent(k: usize, m: u32, x: u32) -> bool
    requires { (k < field_count) × (k ≢ table_bit) }
    ensures { result ≡ same (x ∷ []) (field m k).absent }
{
    x == ABSENT[k]
}

// Whether a constant needs more bits than the width has: condition 6.
pub fn exceeds(constant: u32, width: u32) -> bool
    ensures { result ≡ leb (2 ^ width) constant }
{
    width < 32 && 1 << width <= constant
}
