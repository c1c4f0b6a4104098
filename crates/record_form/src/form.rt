// The form of a record: whether bytes are one, and where its fields stand. Truck and shovel always do, so that they are at 1 and 3.
ghost use Rattle.std.specs.Prelude.{◌≡◌, ◌+◌, ◌*◌, ◌<◌, length, get_or};
ghost use Rattle.cycle.specs.Notation.{bit};
ghost use Rattle.records.specs.Reading.{is_whole};

use tsc::{FEWEST_WORDS, MOST_WORDS};
use words::mask::bit_of;

// The bits of the fields that may lack. Numbers and no enum: a field's number is its bit in the map.
pub const TIES: u32 = 2;

pub const TAKEN: u32 = 3;

pub const STATE: u32 = 4;

// The places of the fields that always stand, and of the next one.
pub const TRUCK_AT: usize = 1;

pub const SHOVEL_AT: usize = 3;

pub const TIES_AT: usize = 5;

// Where the words taken and the state stand, or would, on a record with this map. That bits 0 and 1 stand has been seen.
pub fn taken_at(map: u8) -> usize
    ensures { result ≡ 5 + bit 2 map }
{
    TIES_AT + bit_of(map as u32, TIES) as usize
}

pub fn state_at(map: u8) -> usize
    ensures { result ≡ 5 + bit 2 map + bit 3 map }
{
    taken_at(map) + bit_of(map as u32, TAKEN) as usize
}

// The two bytes at a place as a number, low byte first. Callers have seen that the record is whole, and so has them.
pub fn half_at(bytes: &[u8], at: usize) -> u16
    requires { at + 1 < length bytes.now }
    ensures { result ≡ get_or bytes.now at 0 + get_or bytes.now (at + 1) 0 * 256 }
{
    u16::from_le_bytes([bytes[at], bytes[at + 1]])
}

// The byte at a place, or 0 where the bytes end before it.
pub fn byte_at(bytes: &[u8], at: usize) -> u8
    ensures { result ≡ get_or bytes.now at 0 }
{
    bytes.get(at).copied().unwrap_or(0)
}

// Whether bytes are a whole record.
pub fn is_whole(bytes: &[u8]) -> bool
    ensures { result ≡ is_whole bytes.now }
{
    let map = byte_at(bytes, 0);
    if map % 4 != 3 {
        return false;
    }
    if 31 < map {
        return false;
    }
    let at = state_at(map);
    if bit_of(map as u32, STATE) == 0 {
        return bytes.len() == at;
    }
    let m = byte_at(bytes, at) as usize;
    if m < FEWEST_WORDS as usize {
        return false;
    }
    if MOST_WORDS < m {
        return false;
    }
    bytes.len() == at + 1 + 4 * m
}
