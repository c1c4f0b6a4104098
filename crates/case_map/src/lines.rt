// The lines of cases on the map.
ghost use Rattle.std.specs.Prelude.{◌≤◌};
ghost use Rattle.case_fields.specs.Lists.{room};

use super::{calls, read};
use case_answers::answer;
use case_fields::list::{HALF, ROOM, WORD};
use case_fields::{line, list};
use std::io;
use std::io::Write;

// A line with a truck's place in field k, and with shovels and their places in the two fields from j on, all handed to the call.
fn replay_places<
    W: Write,
    F: FnOnce(&mut W, i32, i32, &[u16], &[i32], &[i32]) -> io::Result<()> + Drop,
>(out: &mut W, line: &[u8], k: usize, j: usize, call: F) -> io::Result<()>
    requires can_call { F.IsAlwaysCallable call }
    requires few { j ≤ room }
{
    let x = read::half_of(line::field(line, k), false);
    let y = read::half_of(line::field(line, k), true);
    let shovels = list::numbers_of(line::field(line, j), false, HALF);
    let xs = read::coordinates_of(line::field(line, j + 1), false);
    let ys = read::coordinates_of(line::field(line, j + 1), true);
    match (x, y, shovels, xs, ys) {
        (Some(x), Some(y), Some(shovels), Some(xs), Some(ys)) => {
            let numbers = shovels.halves();
            let across = read::unbiased_all(xs.words());
            let up = read::unbiased_all(ys.words());
            call(
                out,
                read::unbiased(x),
                read::unbiased(y),
                &numbers[..shovels.len()],
                &across[..xs.len()],
                &up[..ys.len()],
            )
        }
        _ => answer::print_syntax(out),
    }
}

// mappick CARD STATE X:Y SHOVELS PLACES
pub fn replay_map_pick<W: Write>(out: &mut W, line: &[u8], card: &[u8]) -> io::Result<()> {
    let state = list::numbers_of::<ROOM>(line::field(line, 2), true, WORD);
    match (line::fields(line), state) {
        (6, Some(state)) => replay_places(out, line, 3, 4, |out, x, y, shovels, xs, ys| {
            calls::print_map_pick(out, card, state, x, y, shovels, xs, ys)
        }),
        _ => answer::print_syntax(out),
    }
}

// within X:Y RADIUS SHOVELS PLACES
pub fn replay_within<W: Write>(out: &mut W, line: &[u8]) -> io::Result<()> {
    match (line::fields(line), read::biased_of(line::field(line, 2))) {
        (5, Some(biased)) => {
            let radius = read::unbiased(biased);
            replay_places(out, line, 1, 3, |out, x, y, shovels, xs, ys| {
                calls::print_within(out, x, y, radius, shovels, xs, ys)
            })
        }
        _ => answer::print_syntax(out),
    }
}
