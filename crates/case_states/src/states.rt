// The lines of cases on a card and a state.
use super::{calls, recorded};
use case_answers::answer;
use case_answers::answer::PAGE;
use case_fields::list::{HALF, Numbers, ROOM, WORD};
use case_fields::{line, list};
use case_numbers::number;
use generator::call;
use refusals::Refusal;
use std::io;
use std::io::Write;

// The most words that a case may ask for.
const MOST_DRAWS: u32 = 1024;

// A line of three fields, with a call that moves the state.
fn replay_moved<W: Write, F: FnOnce(&[u8], &mut [u32]) -> Result<(), Refusal> + Drop>(
    out: &mut W,
    line: &[u8],
    card: &[u8],
    step: F,
) -> io::Result<()>
    requires { F.IsAlwaysCallable step }
{
    let state = list::numbers_of(line::field(line, 2), true, WORD);
    match (line::fields(line), state) {
        (3, Some(state)) => calls::print_moved(out, card, state, step),
        _ => answer::print_syntax(out),
    }
}

// step CARD STATE
pub fn replay_step<W: Write>(out: &mut W, line: &[u8], card: &[u8]) -> io::Result<()> {
    replay_moved(out, line, card, |card, state| call::step(card, state))
}

// back CARD STATE
pub fn replay_back<W: Write>(out: &mut W, line: &[u8], card: &[u8]) -> io::Result<()> {
    replay_moved(out, line, card, |card, state| call::step_back(card, state))
}

// draw CARD STATE
pub fn replay_draw<W: Write>(out: &mut W, line: &[u8], card: &[u8]) -> io::Result<()> {
    let state = list::numbers_of(line::field(line, 2), true, WORD);
    match (line::fields(line), state) {
        (3, Some(state)) => calls::print_draw(out, card, state),
        _ => answer::print_syntax(out),
    }
}

// words CARD STATE COUNT
pub fn replay_words<W: Write>(out: &mut W, line: &[u8], card: &[u8]) -> io::Result<()> {
    let state = list::numbers_of(line::field(line, 2), true, WORD);
    let count = number::number_of(line::field(line, 3), false);
    match (line::fields(line), state, count) {
        (4, Some(state), Some(count)) if count <= MOST_DRAWS => {
            calls::print_run(out, card, state, count as usize)
        }
        _ => answer::print_syntax(out),
    }
}

// A line of so many fields, with the lists of a pick, a margin or a recorded pick handed to the call.
fn replay_lists<
    W: Write,
    F: FnOnce(&mut W, Numbers<ROOM>, &[u16], &[u32]) -> io::Result<()> + Drop,
>(out: &mut W, line: &[u8], count: usize, call: F) -> io::Result<()>
    requires { F.IsAlwaysCallable call }
{
    let state = list::numbers_of(line::field(line, 2), true, WORD);
    let shovels = list::numbers_of(line::field(line, 3), false, HALF);
    let times = list::numbers_of::<ROOM>(line::field(line, 4), false, WORD);
    match (line::fields(line) == count, state, shovels, times) {
        (true, Some(state), Some(shovels), Some(times)) => {
            let numbers = shovels.halves();
            call(out, state, &numbers[..shovels.len()], times.as_slice())
        }
        _ => answer::print_syntax(out),
    }
}

// pick CARD STATE SHOVELS TIMES
pub fn replay_pick<W: Write>(out: &mut W, line: &[u8], card: &[u8]) -> io::Result<()> {
    replay_lists(out, line, 5, |out, state, shovels, times| {
        calls::print_pick(out, card, state, shovels, times)
    })
}

// margin CARD STATE SHOVELS TIMES
pub fn replay_margin<W: Write>(out: &mut W, line: &[u8], card: &[u8]) -> io::Result<()> {
    replay_lists(out, line, 5, |out, state, shovels, times| {
        calls::print_margin(out, card, state, shovels, times)
    })
}

// recpick CARD STATE SHOVELS TIMES TRUCK PAGELEN, on a page that is not too long to be shown
pub fn replay_recorded<W: Write>(out: &mut W, line: &[u8], card: &[u8]) -> io::Result<()> {
    let truck = number::number_of(line::field(line, 5), false);
    let size = number::number_of(line::field(line, 6), false);
    match (truck, size) {
        (Some(truck), Some(size)) if truck <= HALF && size as usize <= PAGE => {
            let truck = truck as u16;
            let size = size as usize;
            replay_lists(out, line, 7, |out, state, shovels, times| {
                recorded::print_recorded(out, card, state, shovels, times, truck, size)
            })
        }
        _ => answer::print_syntax(out),
    }
}
