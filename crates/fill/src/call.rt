// The fill on lent slices: any bytes as a card, any words as a state, any strip, place and count. A refusal leaves state and strip as lent.
ghost use Rattle.std.specs.Prelude.{◌≡◌};
ghost use Rattle.refusals.specs.Refusals.{told};
ghost use Rattle.fills.specs.Fills.{fill_refusal, filled, filled_state};

use call_check::check as handed;
use card_read::read;
use gates::tsc1;
use outputs::row;
use refusals::Refusal;
use spans::check;
use state_words::lent;

// So many words into the strip from the place on, as single draws would give them, and the state moved as they would move it; or the first refusal of 1 to 11
// and 17 that applies. The card is read and checked once.
pub fn fill(
    card: &[u8],
    state: &mut [u32],
    strip: &mut [u32],
    place: usize,
    count: usize,
) -> Result<(), Refusal>
    ensures answer { told result ≡ fill_refusal card.now state.old strip.old place count }
    ensures words { strip.new ≡ filled card.now state.old strip.old place count }
    ensures after { state.new ≡ filled_state card.now state.old strip.old place count }
{
    let found = read::read(card);
    let values = handed::look(&found, state)?;
    check::span_refusal(strip.len(), place, count)?;
    let is_tsc1 = tsc1::is_tsc1(card);
    let held = lent::load(state);
    let last = row::fill_words(*values, is_tsc1, held, count, &mut strip[place..]);
    lent::store(last, state);
    Ok(())
}
