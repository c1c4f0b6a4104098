// What a pick refuses, by itself: a recorded pick tells it before 16.
ghost use Rattle.std.specs.Prelude.{◌≡◌};
ghost use Rattle.refusals.specs.Refusals.{told};
ghost use Rattle.picks.specs.Picks.{pick_refusal};

use call_check::check;
use card_read::read;
use pick::listing;
use refusals::Refusal;

// The refusal that a pick tells, 1 to 15 or 18: nothing is drawn.
pub fn pick_refusal(
    card: &[u8],
    state: &[u32],
    shovels: &[u16],
    times: &[u32],
) -> Result<(), Refusal>
    ensures { told result ≡ pick_refusal card.now state.now shovels.now times.now }
{
    let found = read::read(card);
    let values = check::look(&found, state)?;
    listing::list_ties(values.width as u32, shovels, times)?;
    Ok(())
}
