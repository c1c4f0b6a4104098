// The recorded pick on lent slices: any bytes as a card, any words as a state, any numbers and times, any page. A refusal leaves state and page as lent.
ghost use Rattle.std.specs.Prelude.{◌≡◌, ◌≤◌, length, take};
ghost use Rattle.tsc.specs.Constants.{most_words};
ghost use Rattle.records.specs.Fields.{record_bytes};
ghost use Rattle.records.specs.Writing.{recorded_on};
ghost use Rattle.recorded_picks.specs.Recorded.{recorded_picking, recorded_state, record_left, recorded_page};

use super::refusal;
use picks::Pick;
use record_write::{room, write};
use refusals::Refusal;
use state_words::lent;
use tsc::State;

// The record that an answer leaves, on a page that has room for it: of a tie, with the first m words of the state before the pick.
fn record_tie(picked: Pick, truck: u16, held: State, m: usize, page: &mut [u8])
    requires { (m ≤ most_words) × (record_bytes m ≤ length page.old) }
    ensures { page.new ≡ recorded_on (record_left truck (take m held.words) picked) page.old }
{
    match picked {
        Pick::Shovel(shovel, ties, taken) => {
            if ties != 1 {
                write::put_record(truck, shovel, ties, taken, &held.words[..m], page);
            }
        }
        Pick::Refused(_) => {}
    }
}

// As a pick, and a tie leaves its record at the front of the page: truck, shovel, ties, words taken and the state before the pick. Or the first refusal of 1 to
// 15, 18 and 16 that applies: 16 where the page has fewer than 8 + 4m bytes, tie or not.
pub fn pick_recorded(
    card: &[u8],
    state: &mut [u32],
    shovels: &[u16],
    times: &[u32],
    truck: u16,
    page: &mut [u8],
) -> Pick
    ensures answer { result ≡ recorded_picking card.now state.old shovels.now times.now (length page.old) }
    ensures after { state.new ≡ recorded_state card.now state.old shovels.now times.now (length page.old) }
    ensures page { page.new ≡ recorded_page card.now state.old shovels.now times.now truck page.old }
{
    let m = state.len();
    if room::lacks_room(m, page.len()) {
        return match refusal::pick_refusal(card, state, shovels, times) {
            Ok(()) => Pick::from(Refusal::BufferTooSmall),
            Err(told) => Pick::from(told),
        };
    }
    let held = lent::load(state);
    let picked = pick::call::pick(card, state, shovels, times);
    record_tie(picked, truck, held, m, page);
    picked
}
