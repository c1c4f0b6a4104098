// What the program prints of a card (document 01, The program). Which numbers these are is in the contracts of the check and of the draw; no contract can
// speak of what is read and printed, so the stored outputs of the programs inspect_card and inspect_inputs hold that.
#![tactic(auto)]

ghost use Rattle.std.specs.Prelude.{◌≡◌, ◌<◌, length, replicate};
ghost use Rattle.cycle.specs.Notation.{iterate};
ghost use Rattle.card_format.specs.Fields.{most_card_bytes};
ghost use Rattle.draws.specs.Calls.{stepped};
ghost use Rattle.inspect.specs.Room.{most_read};

use card::check;
use generator::call;
use printing::Words;
use std::io;
use std::io::{Read, Write};
use tsc::MOST_WORDS;

// The most bytes that the program reads (document 02, Five).
pub const MOST_BYTES: usize = 512;

// The lines for an accepted card.
pub const LINES: u8 = 4;

// One draw: its number, the state words after it, and the word.
fn print_draw<W: Write>(out: &mut W, number: u8, card: &[u8], state: &mut [u32]) -> io::Result<()>
    ensures { state.new ≡ stepped card.now state.old }
{
    match call::draw(card, state) {
        Ok(word) => {
            let after = Words(state);
            writeln!(out, "{number}{after} {word:08x}")
        }
        Err(_) => Ok(()),
    }
}

// Four draws, also where a write fails.
fn print_draws<W: Write>(out: &mut W, card: &[u8], state: &mut [u32]) -> io::Result<()>
    ensures { state.new ≡ iterate (stepped card.now) 4 state.old }
{
    let mut printed = Ok(());
    for number in 1..=LINES {
        printed = printed.and(print_draw(out, number, card, state));
    }
    printed
}

// The verdict on any bytes and, for an accepted card, its draws from the state of zeros.
pub fn print_card<W: Write>(out: &mut W, card: &[u8]) -> io::Result<()> {
    match check::accept(card) {
        Ok(values) => {
            writeln!(out, "verdict 0")?;
            let m = values.words as usize;
            let mut state = [0u32; MOST_WORDS];
            print_draws(out, card, &mut state[..m])
        }
        Err(refusal) => writeln!(out, "verdict {refusal}"),
    }
}

// Room for the bytes that the program reads.
fn room() -> [u8; MOST_BYTES]
    ensures value { result ≡ replicate most_read 0 }
    ensures most_card_bytes_in_bounds { most_card_bytes < length result }
{
    [0; MOST_BYTES]
}

// A file as a card, up to its end or to the most bytes. Where it can't be opened or read there is no verdict.
pub fn print_from<R: Read + Drop>(
    rt: &(impl Print + Eprint),
    file: io::Result<R>,
) -> io::Result<()> {
    let mut bytes = room();
    let found = match file {
        Ok(mut open) => printing::read_full(&mut open, &mut bytes),
        Err(error) => Err(error),
    };
    match found {
        Ok(n) => print_card(&mut io::writer(rt), &bytes[..n]),
        Err(_) => eprintln!(rt; "the card can't be read"),
    }
}

// Standard input so.
pub fn print_input(rt: &(impl Print + Eprint + io::Input)) -> io::Result<()> {
    print_from(rt, Ok(rt.reader()))
}
