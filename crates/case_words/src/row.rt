// So many draws, their words printed.
ghost use Rattle.std.specs.Prelude.{◌≡◌};
ghost use Rattle.cycle.specs.Notation.{iterate};
ghost use Rattle.draws.specs.Calls.{stepped};

use generator::call;
use std::io;
use std::io::Write;

// Word number k of a row of draws, behind a comma but for the first.
fn print_next<W: Write>(out: &mut W, k: usize, card: &[u8], state: &mut [u32]) -> io::Result<()>
    ensures { state.new ≡ stepped card.now state.old }
{
    match call::draw(card, state) {
        Ok(word) => {
            let comma = if k == 0 { "" } else { "," };
            write!(out, "{comma}{word:08x}")
        }
        Err(_) => Ok(()),
    }
}

// So many draws, also where a write fails, their words with commas between; - where there are none.
pub fn print_draws<W: Write>(
    out: &mut W,
    card: &[u8],
    state: &mut [u32],
    count: usize,
) -> io::Result<()>
    ensures { state.new ≡ iterate (stepped card.now) count state.old }
{
    let mut printed = Ok(());
    if count == 0 {
        printed = out.write_all(b"-");
    }
    for k in 0..count {
        printed = printed.and(print_next(out, k, card, state));
    }
    printed
}
