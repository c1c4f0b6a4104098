// The pick on lent slices: any bytes as a card, any words as a state, any numbers and times. A refusal leaves the state as lent.
ghost use Rattle.std.specs.Prelude.{◌≡◌};
ghost use Rattle.picks.specs.Picks.{picking, picked, answering};

use super::{listing, ranks};
use call_check::check;
use card_read::read;
use gates::tsc1;
use picks::Pick;
use refusals::Refusal;
use tie_rank::rank;

// A pick as `pick` answers it, its refusals handed on.
fn choose(card: &[u8], state: &mut [u32], shovels: &[u16], times: &[u32]) -> Result<Pick, Refusal>
    ensures answer { answering result ≡ picking card.now state.old shovels.now times.now }
    ensures after { state.new ≡ picked card.now state.old shovels.now times.now }
{
    let read = read::read(card);
    let values = check::look(&read, state)?;
    let found = listing::list_ties(values.width as u32, shovels, times)?;
    let ties = found.ties as u8;
    if found.ties == 1 {
        let nearest = rank::chosen_by(shovels, times, found.least, 0);
        return Ok(Pick::Shovel(nearest, ties, 0));
    }
    let is_tsc1 = tsc1::is_tsc1(card);
    let drawn = ranks::draw_rank(*values, is_tsc1, state, found.ties as u32);
    let number = rank::chosen_by(shovels, times, found.least, drawn.rank as usize);
    Ok(Pick::Shovel(number, ties, drawn.taken))
}

// The shovel of least time; of several, the one whose rank by ascending number is drawn. Or the first refusal of 1 to 15 and 18 that applies.
pub fn pick(card: &[u8], state: &mut [u32], shovels: &[u16], times: &[u32]) -> Pick
    ensures answer { result ≡ picking card.now state.old shovels.now times.now }
    ensures after { state.new ≡ picked card.now state.old shovels.now times.now }
{
    choose(card, state, shovels, times).unwrap_or_else(Pick::from)
}
