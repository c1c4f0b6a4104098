// The lines of cases on cards.
use super::calls;
use card_table::table;
use case_answers::answer;
use case_answers::answer::PAGE;
use case_fields::list::{BYTE, Numbers, ROOM};
use case_fields::{line, list};
use case_numbers::number;
use std::io;
use std::io::Write;
use tsc::{Card, TABLE_SIZE};

// check CARD
pub fn replay_check<W: Write>(out: &mut W, line: &[u8], card: &[u8]) -> io::Result<()> {
    answer::replay_alone(out, line, card, |out, card| calls::print_check(out, card))
}

// read CARD
pub fn replay_read<W: Write>(out: &mut W, line: &[u8], card: &[u8]) -> io::Result<()> {
    answer::replay_alone(out, line, card, |out, card| calls::print_read(out, card))
}

// badbit CARD
pub fn replay_bad_places<W: Write>(out: &mut W, line: &[u8], card: &[u8]) -> io::Result<()> {
    answer::replay_alone(
        out,
        line,
        card,
        |out, card| calls::print_bad_places(out, card),
    )
}

// The values but table and constant, by their places, and the entries of the table.
fn replay_values<W: Write>(
    out: &mut W,
    values: Numbers<ROOM>,
    entries: Numbers<ROOM>,
    constant: u32,
    size: usize,
) -> io::Result<()> {
    let n = entries.len();
    if PAGE < size || TABLE_SIZE < n {
        return answer::print_syntax(out);
    }
    let [words, width, odd_power, even_power, filter, sum_term, ..] = values.bytes();
    let card = Card {
        words,
        width,
        table: table::table_from(&entries.bytes(), n),
        odd_power,
        even_power,
        constant,
        filter,
        sum_term,
    };
    calls::print_write(out, card, size)
}

// write m n T a b C filter sum PAGELEN
pub fn replay_write<W: Write>(out: &mut W, line: &[u8]) -> io::Result<()> {
    let mut values = Some(Numbers::new());
    for k in [1, 2, 4, 5, 7, 8] {
        values = list::with_number(values, number::number_of(line::field(line, k), false), BYTE);
    }
    let entries = list::numbers_of(line::field(line, 3), false, BYTE);
    let constant = number::constant_of(line::field(line, 6));
    let size = number::number_of(line::field(line, 9), false);
    match (line::fields(line), values, entries, constant, size) {
        (10, Some(values), Some(entries), Some(constant), Some(size)) => {
            replay_values(out, values, entries, constant, size as usize)
        }
        _ => answer::print_syntax(out),
    }
}
