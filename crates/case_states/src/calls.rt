// The calls on a card and a state, each with its answer printed. A state is handed over as a list of words, lent to the call as a copy, and compared with it
// after a refusal. Which numbers are printed is in the contracts of the calls; no contract can speak of what is printed, so the stored output of the program
// holds that.

use call_check::check;
use case_answers::answer;
use case_answers::answer::{Choice, Words};
use case_fields::list::{Numbers, ROOM};
use case_words::row;
use generator::call;
use picks::Pick;
use refusals::Refusal;
use std::io::Write;
use std::{fmt, io};

// The answer to a refused call that was lent a state.
fn print_refused<W: Write, R: fmt::Display + Drop>(
    out: &mut W,
    refusal: R,
    lent: Numbers<ROOM>,
    after: Numbers<ROOM>,
) -> io::Result<()> {
    let kept = answer::same_words(lent.as_slice(), after.as_slice());
    answer::print_refused(out, refusal, kept)
}

// A step or a step back.
pub fn print_moved<W: Write, F: FnOnce(&[u8], &mut [u32]) -> Result<(), Refusal>>(
    out: &mut W,
    card: &[u8],
    state: Numbers<ROOM>,
    step: F,
) -> io::Result<()>
    requires { F.IsAlwaysCallable step }
{
    let mut moved = state;
    match step(card, moved.as_mut_slice()) {
        Ok(()) => {
            let after = Words(moved.as_slice());
            writeln!(out, "state {after}")
        }
        Err(refusal) => print_refused(out, refusal, state, moved),
    }
}

// A draw.
pub fn print_draw<W: Write>(out: &mut W, card: &[u8], state: Numbers<ROOM>) -> io::Result<()> {
    let mut moved = state;
    match call::draw(card, moved.as_mut_slice()) {
        Ok(word) => {
            let after = Words(moved.as_slice());
            writeln!(out, "word {word:08x} state {after}")
        }
        Err(refusal) => print_refused(out, refusal, state, moved),
    }
}

// So many words drawn. No draw at all is refused as a draw is.
pub fn print_run<W: Write>(
    out: &mut W,
    card: &[u8],
    state: Numbers<ROOM>,
    count: usize,
) -> io::Result<()> {
    if let Err(refusal) = check::card_for(card, state.as_slice()) {
        return answer::print_refused(out, refusal, true);
    }
    let mut moved = state;
    out.write_all(b"words ")?;
    row::print_draws(out, card, moved.as_mut_slice(), count)?;
    let after = Words(moved.as_slice());
    writeln!(out, " state {after}")
}

// A pick's answer.
pub fn print_picked<W: Write>(
    out: &mut W,
    picked: Pick,
    lent: Numbers<ROOM>,
    after: Numbers<ROOM>,
) -> io::Result<()> {
    match picked {
        Pick::Shovel(shovel, ties, taken) => {
            let choice = Choice {
                shovel,
                ties,
                taken,
            };
            let words = Words(after.as_slice());
            writeln!(out, "{choice} state {words}")
        }
        Pick::Refused(number) => print_refused(out, number, lent, after),
    }
}

// A pick.
pub fn print_pick<W: Write>(
    out: &mut W,
    card: &[u8],
    state: Numbers<ROOM>,
    shovels: &[u16],
    times: &[u32],
) -> io::Result<()> {
    let mut moved = state;
    let picked = pick::call::pick(card, moved.as_mut_slice(), shovels, times);
    print_picked(out, picked, state, moved)
}

// A margin: the change that sends the truck elsewhere, and the changed pick. The state is lent to read only, so that a refusal leaves it as lent.
pub fn print_margin<W: Write>(
    out: &mut W,
    card: &[u8],
    state: Numbers<ROOM>,
    shovels: &[u16],
    times: &[u32],
) -> io::Result<()> {
    match margin::call::margin(card, state.as_slice(), shovels, times) {
        Ok(nearest) => {
            let changed = nearest.changed;
            let direction = if nearest.raised { "raised" } else { "lowered" };
            let seconds = nearest.seconds;
            let choice = Choice {
                shovel: nearest.shovel,
                ties: nearest.ties,
                taken: nearest.taken,
            };
            writeln!(out, "change {changed} {direction} {seconds} {choice}")
        }
        Err(refusal) => answer::print_refused(out, refusal, true),
    }
}
