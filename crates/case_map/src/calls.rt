// The calls on the map, each with its answer printed. A state is lent as a copy, and compared with what was handed over after a refusal.
use case_answers::answer;
use case_answers::answer::Entries;
use case_fields::list::{Numbers, ROOM};
use case_states::calls;
use std::io;
use std::io::Write;

// A pick by the map.
pub fn print_map_pick<W: Write>(
    out: &mut W,
    card: &[u8],
    state: Numbers<ROOM>,
    x: i32,
    y: i32,
    shovels: &[u16],
    xs: &[i32],
    ys: &[i32],
) -> io::Result<()> {
    let mut moved = state;
    let picked = map_pick::call::pick_by_map(card, moved.as_mut_slice(), x, y, shovels, xs, ys);
    calls::print_picked(out, picked, state, moved)
}

// The shovels within a radius: how many, and all 64 numbers.
pub fn print_within<W: Write>(
    out: &mut W,
    x: i32,
    y: i32,
    radius: i32,
    shovels: &[u16],
    xs: &[i32],
    ys: &[i32],
) -> io::Result<()> {
    let found = within::call::within(x, y, radius, shovels, xs, ys);
    // The answer is the struct for C, nearby::WithinAnswer.
    if found.refusal != 0 {
        return answer::print_refused(out, found.refusal, true);
    }
    let count = found.count;
    let numbers = Entries(found.shovels.as_slice());
    writeln!(out, "count {count} numbers {numbers}")
}
