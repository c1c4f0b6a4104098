// A record read for the desk: every field, and one that lacks as None.
ghost use Rattle.std.specs.Prelude.{◌≡◌, cond, [], ◌∷◌, ◌+◌, ◌*◌, ◌<◌, ◌≤◌, eqb, length, get_or, drop};
ghost use Rattle.tsc.specs.Constants.{most_words, widest_width};
ghost use Rattle.cycle.specs.Notation.{bit};
ghost use Rattle.card_format.specs.Fields.{numbers};
ghost use Rattle.refusals.specs.Refusals.{numbered};
ghost use Rattle.records.specs.Fields.{word_field};
ghost use Rattle.records.specs.Reading.{optional, held_state, reading_record};

use record_form::form;
use records::Record;
use refusals::Refusal;
use tsc::{MOST_WORDS, State};
use words::mask::bit_of;

// The byte at a place where bit k of the map stands, and nothing where it does not. A whole record has it there.
fn optional_at(bytes: &[u8], map: u8, k: u32, at: usize) -> Option<u8>
    requires { (k < widest_width) × (bit k map ≡ 1 → at < length bytes.now) }
    ensures { result ≡ optional (cond (eqb (bit k map) 1) (get_or bytes.now at 0 ∷ []) []) }
{
    if bit_of(map as u32, k) == 1 {
        return Some(bytes[at]);
    }
    None
}

// The four bytes at a place as a number, low byte first.
fn word_at(bytes: &[u8], at: usize) -> u32
    requires { at + 3 < length bytes.now }
    ensures { result ≡ get_or bytes.now at 0 + get_or bytes.now (at + 1) 0 * 256 + get_or bytes.now (at + 2) 0 * 65536 + get_or bytes.now (at + 3) 0 * 16777216 }
{
    u32::from_le_bytes([bytes[at], bytes[at + 1], bytes[at + 2], bytes[at + 3]])
}

// A state of m words of four bytes, at the start of the part. The record is whole, and so has them, here and below.
fn state_from(part: &[u8], m: usize) -> State
    requires { (m ≤ most_words) × (4 * m ≤ length part.now) }
    ensures { result ≡ held_state (numbers (word_field m) part.now) }
{
    let mut words = [0; MOST_WORDS];
    for (k, word) in words[..m].iter_mut().enumerate() {
        *word = word_at(part, 4 * k);
    }
    State { words }
}

// The state whose field would stand at this place: its words, and zeros past them; all zeros where the record has none.
fn state_of(bytes: &[u8], at: usize) -> State
    requires { (get_or bytes.now at 0 ≤ most_words) × (at < length bytes.now → at + 1 + 4 * get_or bytes.now at 0 ≤ length bytes.now) }
    ensures { result ≡ held_state (numbers (word_field (get_or bytes.now at 0)) (drop (at + 1) bytes.now)) }
{
    if bytes.len() <= at {
        return State {
            words: [0; MOST_WORDS],
        };
    }
    state_from(&bytes[at + 1..], bytes[at] as usize)
}

// Any bytes as a record: every field, or refusal 20.
pub fn read_record(bytes: &[u8]) -> Result<Record, Refusal>
    ensures { numbered result ≡ reading_record bytes.now }
{
    if !form::is_whole(bytes) {
        return Err(Refusal::MalformedRecord);
    }
    let map = bytes[0];
    let at = form::state_at(map);
    Ok(Record {
        truck: form::half_at(bytes, form::TRUCK_AT),
        shovel: form::half_at(bytes, form::SHOVEL_AT),
        ties: optional_at(bytes, map, form::TIES, form::TIES_AT),
        taken: optional_at(bytes, map, form::TAKEN, form::taken_at(map)),
        words: optional_at(bytes, map, form::STATE, at),
        state: state_of(bytes, at),
    })
}
