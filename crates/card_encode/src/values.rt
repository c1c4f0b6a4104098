// A card's values: the numbers of its fields, and refusals 2 and 6 to 9.
ghost use Rattle.std.specs.Prelude.{◌≡◌, ◌≢◌, [], ◌∷◌, ◌<◌, ◌≤◌};
ghost use Rattle.tsc.specs.Constants.{most_words};
ghost use Rattle.refusals.specs.Refusals.{first_of, told};
ghost use Rattle.card_format.specs.Fields.{field, field_count, table_bit, allowed};
ghost use Rattle.card_format.specs.Writing.{numbers_of, in_range, value_checks};

use card::check;
use card_fields::field;
use card_table::table;
use refusals::Refusal;
use tsc::Card;

// The number of field k, which is not the table: callers have asked.
pub fn number_of(card: Card, k: usize) -> u32
    requires { (k < field_count) × (k ≢ table_bit) }
    ensures { numbers_of card k ≡ result ∷ [] }
{
    let numbers = [
        card.words as u32,
        card.width as u32,
        0,
        card.odd_power as u32,
        card.even_power as u32,
        card.constant,
        card.filter as u32,
        card.sum_term as u32,
    ];
    numbers[k]
}

// Whether the numbers of field k are allowed. Field 0 is asked first: the table's size is worked out from it.
fn field_allowed(card: Card, k: usize) -> bool
    requires { (k < field_count) × (0 < k → card.words ≤ most_words) }
    ensures { result ≡ allowed (field card.words k) (numbers_of card k) }
{
    if k == field::TABLE {
        return table::entries_allowed(&card.table, card.words as u32);
    }
    field::number_allowed(k, card.words as u32, number_of(card, k))
}

// Whether every value is allowed, and unused table entries are 0.
fn in_range(card: Card) -> bool
    ensures { result ≡ in_range card }
{
    for k in 0..field::FIELDS {
        if !field_allowed(card, k) {
            return false;
        }
    }
    table::unused_clear(&card.table, card.words as u32)
}

// The first of refusals 2 and 6 to 9 that applies.
pub fn value_refusal(card: Card) -> Result<(), Refusal>
    ensures { told result ≡ first_of (value_checks card) }
{
    if !in_range(card) {
        return Err(Refusal::OutOfRange);
    }
    if field::exceeds(card.constant, card.width as u32) {
        return Err(Refusal::ConstantTooWide);
    }
    check::period_refusal(&card)
}
