// The values of a card on the way from field to field, the card made of them, and the table's reader. The table is lent, since it would be copied with each field.
ghost use Rattle.std.specs.Prelude.{◌≡◌, ◌≢◌, ℕ, ◌^◌, ◌<◌, ◌≤◌, length, get_or};
ghost use Rattle.tsc.specs.Constants.{most_words};
ghost use Rattle.card_format.specs.Fields.{field_count, table_bit, constant_bit};
ghost use Rattle.card_format.specs.Reading.{card_from};
ghost use Rattle.refusals.specs.Refusals.{numbered};
ghost use Rattle.card_values.specs.FieldRead.{field_read, table_read};

use card_fields::field;
use card_table::table;
use refusals::Refusal;
use tsc::{Card, TABLE_SIZE};

// What a field's reader hands on: the bytes that it used, and the numbers so far, by their bits.
#[derive(Clone, Copy)]
pub struct Values {
    pub used: usize,
    pub numbers: [u32; field::FIELDS],
}

impl Values {
    // The card of these numbers and this table. The reader calls it once all checks are passed, so that a number of one byte is below 256.
    pub fn card(self, table: [u8; TABLE_SIZE]) -> Card
        requires { (k : ℕ) → k < field_count → k ≢ table_bit → k ≢ constant_bit → get_or self.numbers k 0 < 256 }
        ensures { result ≡ card_from (λ k. get_or self.numbers k 0) table }
    {
        Card {
            words: self.numbers[field::WORDS] as u8,
            width: self.numbers[field::WIDTH] as u8,
            table: table,
            odd_power: self.numbers[field::ODD_POWER] as u8,
            even_power: self.numbers[field::EVEN_POWER] as u8,
            constant: self.numbers[field::CONSTANT],
            filter: self.numbers[field::FILTER] as u8,
            sum_term: self.numbers[field::SUM_TERM] as u8,
        }
    }
}

// The table at the start of the part. The reader has m from a words field that passed its checks, or from its absent value.
pub fn read_table(part: &[u8], v: Values, table: &mut [u8; TABLE_SIZE]) -> Result<Values, Refusal>
    requires { (get_or v.numbers 0 0 ≤ most_words) × (length table.old ≡ 2 ^ most_words) }
    ensures value { numbered result ≡ field_read table_bit part.now v }
    ensures table_after { table.new ≡ table_read table_bit part.now v table.old }
{
    let m = v.numbers[field::WORDS];
    let size = table::entries(m);
    if part.len() < size {
        return Err(Refusal::Truncated);
    }
    table::put_entries(part, size, table);
    if !table::entries_allowed(table, m) {
        return Err(Refusal::OutOfRange);
    }
    if table::is_tsc1(table, m) {
        return Err(Refusal::Redundant);
    }
    Ok(Values {
        used: size,
        numbers: v.numbers,
    })
}
