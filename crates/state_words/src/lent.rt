// Lent state words: refused, loaded, and stored.
ghost use Rattle.std.specs.Prelude.{◌≡◌, ◌≤◌, length, take};
ghost use Rattle.tsc.specs.Constants.{most_words};
ghost use Rattle.refusals.specs.Refusals.{first_of, told};
ghost use Rattle.stepping.specs.State.{holding};
ghost use Rattle.state_words.specs.Checks.{state_checks};

use card_fields::width;
use refusals::Refusal;
use tsc::{MOST_WORDS, State};

// The first of refusals 10 and 11 that applies to a state of a card of m words of n bits.
pub fn state_refusal(m: u8, n: u8, state: &[u32]) -> Result<(), Refusal>
    ensures { told result ≡ first_of (state_checks m n state.now) }
{
    if state.len() != m as usize {
        return Err(Refusal::WordCount);
    }
    if !width::all_fit(state, n) {
        return Err(Refusal::WordTooWide);
    }
    Ok(())
}

// A state of the lent words, and zeros past them. Callers have found no more words than a state has.
pub fn load(state: &[u32]) -> State
    requires { length state.now ≤ most_words }
    ensures { result ≡ holding state.now }
{
    let mut words = [0; MOST_WORDS];
    words[..state.len()].copy_from_slice(state);
    State { words }
}

// As many of a state's first words as are lent: the calls have found that a state has them.
pub fn store(s: State, state: &mut [u32])
    requires { length state.old ≤ most_words }
    ensures { state.new ≡ take (length state.old) s.words }
{
    state.copy_from_slice(&s.words[..state.len()]);
}
