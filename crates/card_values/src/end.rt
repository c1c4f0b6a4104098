// The end of a card: refusals 4, 5 and 6. The reader asks for 4 before each field too.
ghost use Rattle.std.specs.Prelude.{◌≡◌};
ghost use Rattle.refusals.specs.Refusals.{first_of, told};
ghost use Rattle.card_values.specs.FieldRead.{missing, end_checks};

use super::values::Values;
use card_fields::field;
use refusals::Refusal;
use tsc::DEFAULT_WORDS;

// Whether no table stands between the fields `next` and k, though m is not the default.
pub fn table_missing(next: usize, k: usize, m: u32) -> bool
    ensures { result ≡ missing next k m }
{
    next <= field::TABLE && field::TABLE < k && m != DEFAULT_WORDS
}

// What the end of a card of so many bytes is refused for, where no field from `next` on is left and the last one ended at `at`: the first of 4, 5 and 6 that
// applies.
pub fn end_refusal(size: usize, next: usize, at: usize, v: Values) -> Result<(), Refusal>
    ensures { told result ≡ first_of (end_checks size next at v) }
{
    if table_missing(next, field::FIELDS, v.numbers[field::WORDS]) {
        return Err(Refusal::TableMissing);
    }
    if at < size {
        return Err(Refusal::TrailingBytes);
    }
    if field::exceeds(v.numbers[field::CONSTANT], v.numbers[field::WIDTH]) {
        return Err(Refusal::ConstantTooWide);
    }
    Ok(())
}
