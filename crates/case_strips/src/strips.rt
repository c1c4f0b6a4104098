// The fill, with its answer printed. Strip and state are lent as copies, and compared with what was handed over after a refusal.
use case_answers::answer;
use case_answers::answer::Words;
use case_fields::list::{Numbers, ROOM, WORD};
use case_fields::{line, list};
use case_numbers::number;
use std::io;
use std::io::Write;

// A fill: strip and state after it or, for a refusal, its number and whether both are as lent.
fn print_fill<W: Write>(
    out: &mut W,
    card: &[u8],
    state: Numbers<ROOM>,
    strip: Numbers<ROOM>,
    place: usize,
    count: usize,
) -> io::Result<()> {
    let mut moved = state;
    let mut filled = strip;
    let told = fill::call::fill(
        card,
        moved.as_mut_slice(),
        filled.as_mut_slice(),
        place,
        count,
    );
    match told {
        Ok(()) => {
            let words = Words(filled.as_slice());
            let after = Words(moved.as_slice());
            writeln!(out, "strip {words} state {after}")
        }
        Err(refusal) => {
            let kept = answer::same_words(strip.as_slice(), filled.as_slice())
                && answer::same_words(state.as_slice(), moved.as_slice());
            answer::print_refused(out, refusal, kept)
        }
    }
}

// strip CARD STATE STRIP PLACE COUNT
pub fn replay_strip<W: Write>(out: &mut W, line: &[u8], card: &[u8]) -> io::Result<()> {
    let state = list::numbers_of(line::field(line, 2), true, WORD);
    let strip = list::numbers_of(line::field(line, 3), true, WORD);
    let place = number::number_of(line::field(line, 4), false);
    let count = number::number_of(line::field(line, 5), false);
    match (line::fields(line), state, strip, place, count) {
        (6, Some(state), Some(strip), Some(place), Some(count)) => {
            print_fill(out, card, state, strip, place as usize, count as usize)
        }
        _ => answer::print_syntax(out),
    }
}
