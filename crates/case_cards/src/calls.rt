// The calls on cards, each with its answer printed. That a page is not more than the most, the line's reader has seen. Which numbers are printed is in the
// contracts of the calls; no contract can speak of what is printed, so the stored output of the program holds that.
ghost use Rattle.std.specs.Prelude.{◌≤◌};
ghost use Rattle.tsc.specs.Constants.{most_words};
ghost use Rattle.case_answers.specs.Page.{most_page};

use card_read::read;
use card_table::table;
use card_write::write;
use case_answers::answer;
use case_answers::answer::{Bytes, Entries};
use std::io;
use std::io::Write;
use tsc::Card;

// The verdict on a card.
pub fn print_check<W: Write>(out: &mut W, card: &[u8]) -> io::Result<()> {
    match card::check::check(card) {
        Ok(()) => writeln!(out, "verdict 0"),
        Err(refusal) => writeln!(out, "verdict {refusal}"),
    }
}

// The eight values of a card.
fn print_values<W: Write>(out: &mut W, card: Card) -> io::Result<()>
    requires { card.words ≤ most_words }
{
    let Card {
        words,
        width,
        odd_power,
        even_power,
        constant,
        filter,
        sum_term,
        ..
    } = card;
    let size = table::entries(words as u32);
    let entries = Entries(&card.table[..size]);
    writeln!(
        out,
        "fields {words} {width} {entries} {odd_power} {even_power} 0x{constant:08x} {filter} {sum_term}"
    )
}

// A card read.
pub fn print_read<W: Write>(out: &mut W, card: &[u8]) -> io::Result<()> {
    match read::read(card) {
        Ok(values) => print_values(out, values),
        Err(refusal) => answer::print_refused(out, refusal, true),
    }
}

// The bad places of a card's table: how many, and which.
pub fn print_bad_places<W: Write>(out: &mut W, card: &[u8]) -> io::Result<()> {
    let found = diagnosis::call::bad_places(card);
    // The answer is the struct for C, diagnoses::BadPlaces.
    if found.refusal != 0 {
        return answer::print_refused(out, found.refusal, true);
    }
    let count = found.count;
    let places = Entries(&found.places[..count as usize]);
    writeln!(out, "places {count} {places}")
}

// Values written to a page of so many bytes, and the whole page.
pub fn print_write<W: Write>(out: &mut W, card: Card, size: usize) -> io::Result<()>
    requires { size ≤ most_page }
{
    let mut page = answer::untouched();
    match write::write(card, &mut page[..size]) {
        Ok(length) => {
            let shown = Bytes(&page[..size]);
            writeln!(out, "length {length} page {shown}")
        }
        Err(refusal) => answer::print_refused(out, refusal, page == answer::untouched()),
    }
}
