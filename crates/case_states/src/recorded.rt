// Recorded picks, each with its answer and the whole page printed. The page is lent with every byte a5, and compared with that after a refusal.
ghost use Rattle.std.specs.Prelude.{◌≤◌};
ghost use Rattle.case_answers.specs.Page.{most_page};

use case_answers::answer;
use case_answers::answer::{Bytes, Choice, Words};
use case_fields::list::{Numbers, ROOM};
use picks::Pick;
use std::io;
use std::io::Write;

// A recorded pick on a page of so many bytes: the page and the state after it.
pub fn print_recorded<W: Write>(
    out: &mut W,
    card: &[u8],
    state: Numbers<ROOM>,
    shovels: &[u16],
    times: &[u32],
    truck: u16,
    size: usize,
) -> io::Result<()>
    requires { size ≤ most_page }
{
    let mut moved = state;
    let mut page = answer::untouched();
    let picked = recorded_pick::call::pick_recorded(
        card,
        moved.as_mut_slice(),
        shovels,
        times,
        truck,
        &mut page[..size],
    );
    match picked {
        Pick::Shovel(shovel, ties, taken) => {
            let choice = Choice {
                shovel,
                ties,
                taken,
            };
            let shown = Bytes(&page[..size]);
            let words = Words(moved.as_slice());
            writeln!(out, "{choice} page {shown} state {words}")
        }
        Pick::Refused(number) => {
            let kept = page == answer::untouched()
                && answer::same_words(state.as_slice(), moved.as_slice());
            answer::print_refused(out, number, kept)
        }
    }
}
