// Numbers as bytes, low byte first: read, put on a page, and a field of one number.
ghost use Rattle.std.specs.Prelude.{◌≡◌, ◌≢◌, [], ◌∷◌, ◌++◌, ◌+◌, ◌*◌, ◌<◌, ◌≤◌, length, drop};
ghost use Rattle.tsc.specs.Constants.{most_words};
ghost use Rattle.card_format.specs.Fields.{field, field_count, table_bit, extent, numbers};
ghost use Rattle.refusals.specs.Refusals.{numbered};
ghost use Rattle.card_fields.specs.LowBytes.{low_bytes};
ghost use Rattle.card_fields.specs.Number.{number_read};

use super::field;
use refusals::Refusal;

// Four bytes as a number, low byte first.
pub fn low_first(a: u8, b: u8, c: u8, d: u8) -> u32
    ensures { result ≡ a + b * 256 + c * 65536 + d * 16777216 }
{
    u32::from_le_bytes([a, b, c, d])
}

// The number of field k of a card of m words, at the start of the part.
fn number_at(k: usize, m: u32, part: &[u8]) -> u32
    requires k_lt_field_count { (k < field_count) × (k ≢ table_bit) }
    requires k_in_bounds { extent (field m k) ≤ length part.now }
    ensures { numbers (field m k) part.now ≡ result ∷ [] }
{
    if k == field::CONSTANT {
        return low_first(part[0], part[1], part[2], part[3]);
    }
    part[0] as u32
}

// Field k of a card of m words, at the start of the part. The reader calls it where k is not the table.
pub fn read_number(k: usize, m: u32, part: &[u8]) -> Result<u32, Refusal>
    requires { (k < field_count) × (k ≢ table_bit) × (m ≤ most_words) }
    ensures { numbered result ≡ number_read (field m k) part.now }
{
    if part.len() < field::extent_of(k, m) {
        return Err(Refusal::Truncated);
    }
    let v = number_at(k, m, part);
    if !field::number_allowed(k, m, v) {
        return Err(Refusal::OutOfRange);
    }
    if field::is_absent(k, m, v) {
        return Err(Refusal::Redundant);
    }
    Ok(v)
}

// A number of `size` bytes, low byte first, at the start of the part.
pub fn put_number(x: u32, size: usize, part: &mut [u8])
    requires { size ≤ length part.old }
    ensures { part.new ≡ low_bytes x size ++ drop size part.old }
{
    let mut rest = x;
    for byte in part[..size].iter_mut() {
        *byte = (rest % 256) as u8;
        rest /= 256;
    }
}
