// Places in the text of a case. A coordinate is read as a number, 2^31 more than it is, so that lists of numbers serve; then it is made a coordinate.
ghost use Rattle.std.specs.Prelude.{◌≡◌, ℕ, ◌<◌, pos, get_or};
ghost use Rattle.case_fields.specs.Lists.{room};
ghost use Rattle.case_map.specs.Coordinates.{biased_in, half_in, coordinates_in, coordinate_of};

use case_fields::list;
use case_fields::list::{Numbers, ROOM, WORD};
use case_numbers::number;

const BIAS: u32 = 0x8000_0000;

// A coordinate or a radius, with its bias.
pub fn biased_of(field: &[u8]) -> Option<u32>
    ensures { result ≡ biased_in field.now }
{
    match field.strip_prefix(b"-") {
        Some(digits) => BIAS.checked_sub(number::number_of(digits, false)?),
        None => BIAS.checked_add(number::number_of(field, false)?),
    }
}

// x or y of a place, with its bias. Which of them is a bool, as the definition half_in takes it.
pub fn half_of(place: &[u8], second: bool) -> Option<u32>
    ensures { result ≡ half_in second place.now }
{
    match place.iter().position(|byte| *byte == b':') {
        Some(at) if second => biased_of(&place[at + 1..]),
        Some(at) => biased_of(&place[..at]),
        None if second => None,
        None => biased_of(place),
    }
}

// All x or all y of places, with their bias. Which of them is a bool, as the definition coordinates_in takes it.
pub fn coordinates_of(field: &[u8], second: bool) -> Option<Numbers<ROOM>>
    ensures { result ≡ coordinates_in second field.now }
{
    let empty = Some(Numbers::new());
    if list::is_nothing(field) {
        return empty;
    }
    field
        .split(|byte| *byte == b',')
        .fold(empty, move |numbers, place| {
            list::with_number(numbers, half_of(place, second), WORD)
        })
}

// The coordinate.
pub fn unbiased(biased: u32) -> i32
    ensures { result ≡ coordinate_of biased }
{
    (biased as i64 - 0x8000_0000) as i32
}

// The coordinates of a list.
pub fn unbiased_all(biased: [u32; ROOM]) -> [i32; ROOM]
    ensures { (i : ℕ) → i < room → get_or result i (pos 0) ≡ coordinate_of (get_or biased i 0) }
{
    biased.map(|word| unbiased(word))
}
