// Margin on lent slices: any bytes as a card, any words as a state, any numbers and times. The state is only read.
ghost use Rattle.refusals.specs.Refusals.{numbered};
ghost use Rattle.margins.specs.Margins.{IsMargin};

use super::{changed, chosen};
use call_check::check;
use candidates::search;
use card_read::read;
use gates::tsc1;
use margins::Nearest;
use pick::listing;
use refusals::Refusal;
use state_words::lent;

// The least change of one shovel's time that sends the truck elsewhere, with the changed pick. Or the first refusal of 1 to 15 and 18 that applies to the pick,
// or 19 where no change does.
pub fn margin(
    card: &[u8],
    state: &[u32],
    shovels: &[u16],
    times: &[u32],
) -> Result<Nearest, Refusal>
    ensures { IsMargin card.now state.now shovels.now times.now (numbered result) }
{
    let read = read::read(card);
    let values = check::look(&read, state)?;
    let found = listing::list_ties(values.width as u32, shovels, times)?;
    let is_tsc1 = tsc1::is_tsc1(card);
    let held = lent::load(state);
    let known = chosen::known_of(
        *values,
        is_tsc1,
        held,
        shovels,
        times,
        found.least,
        found.ties,
    );
    match search::least_change(known, shovels, times) {
        None => Err(Refusal::NoSuchChange),
        Some(c) => Ok(changed::told(known, shovels, times, c)),
    }
}
