// A card and a state, as they are handed over, looked at before anything is done with them.
ghost use Rattle.std.specs.Prelude.{◌≡◌, List, ℕ, MatchResult};
ghost use Rattle.refusals.specs.Refusals.{number, numbered, answered};
ghost use Rattle.card_format.specs.Reading.{card_of, reading};
ghost use Rattle.draws.specs.Calls.{refusal_for};

use card::check;
use card_read::read;
use refusals::Refusal;
use state_words::lent;
use tsc::Card;

// The values of a card that is accepted, with a state of its size; or the first refusal of 1 to 11 that applies.
pub fn card_for(card: &[u8], state: &[u32]) -> Result<Card, Refusal>
    ensures { numbered result ≡ answered (refusal_for card.now state.now) (card_of card.now) }
{
    look(&read::read(card), state).copied()
}

// The same of what was read of a card, which the calls have just done: the values stay where the reader put them, since to take them out would copy the card.
pub fn look<'a>(found: &'a Result<Card, Refusal>, state: &[u32]) -> Result<&'a Card, Refusal>
    requires { (bytes : List ℕ) × (numbered found.now ≡ reading bytes) }
    ensures { (bytes : List ℕ) → numbered found.now ≡ reading bytes → MatchResult result (λ v. (refusal_for bytes state.now ≡ 0) × (v.now ≡ card_of bytes)) (λ e. refusal_for bytes state.now ≡ number e) }
{
    match found {
        Ok(values) => {
            check::period_refusal(values)?;
            lent::state_refusal(values.words, values.width, state)?;
            Ok(values)
        }
        Err(refusal) => Err(*refusal),
    }
}
