// Reading a card: refusals 1 to 6, and the eight values.
ghost use Rattle.std.specs.Prelude.{◌≡◌, ◌^◌, ◌<◌, ◌≤◌, length, get_or, Ok};
ghost use Rattle.tsc.specs.Constants.{most_words};
ghost use Rattle.card_format.specs.Fields.{field_count};
ghost use Rattle.card_format.specs.Reading.{reading};
ghost use Rattle.refusals.specs.Refusals.{numbered};
ghost use Rattle.card_values.specs.declared.values.Values.{Values};
ghost use Rattle.card_values.specs.FieldRead.{field_read, table_read};

use card_fields::{field, number};
use card_table::table;
use card_values::values::Values;
use card_values::{end, values};
use refusals::Refusal;
use tsc::{Card, TABLE_SIZE};

// Field k at the start of the part.
fn read_field(
    k: usize,
    part: &[u8],
    v: Values,
    table: &mut [u8; TABLE_SIZE],
) -> Result<Values, Refusal>
    requires { (k < field_count) × (get_or v.numbers 0 0 ≤ most_words) × (length table.old ≡ 2 ^ most_words) }
    ensures value { numbered result ≡ field_read k part.now v }
    ensures used_in_bounds { (out : Values) → result ≡ Ok out → out.used ≤ length part.now }
    ensures table_after { table.new ≡ table_read k part.now v table.old }
{
    if k == field::TABLE {
        return values::read_table(part, v, table);
    }
    let m = v.numbers[field::WORDS];
    let mut out = v;
    out.numbers[k] = number::read_number(k, m, part)?;
    out.used = field::extent_of(k, m);
    Ok(out)
}

// Any bytes as a card: the eight values, or the first of refusals 1 to 6 that applies.
pub fn read(card: &[u8]) -> Result<Card, Refusal>
    ensures { numbered result ≡ reading card.now }
{
    if card.is_empty() {
        return Err(Refusal::Truncated);
    }
    let mut v = Values {
        used: 0,
        numbers: field::ABSENT,
    };
    // zeros until the table's field is read: an absent table is filled in at the end, where it is not copied
    let mut table = [0; TABLE_SIZE];
    let mut left = card[0];
    let mut next: usize = 0;
    let mut at: usize = 1;
    for _ in 0..left.count_ones() {
        let k = left.trailing_zeros() as usize;
        if end::table_missing(next, k, v.numbers[field::WORDS]) {
            return Err(Refusal::TableMissing);
        }
        v = read_field(k, &card[at..], v, &mut table)?;
        at += v.used;
        next = k + 1;
        left &= left - 1;
    }
    end::end_refusal(card.len(), next, at, v)?;
    if (card[0] >> field::TABLE) % 2 == 0 {
        return Ok(v.card(table::absent_table()));
    }
    Ok(v.card(table))
}
