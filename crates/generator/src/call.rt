// The calls on lent slices: any bytes as a card, any words as a state. A refusal leaves the state as lent.
ghost use Rattle.std.specs.Prelude.{◌≡◌, cond, ℕ, ◌^◌, ◌<◌, eqb, Ok};
ghost use Rattle.tsc.specs.Coverage.{IsState, step_back};
ghost use Rattle.card_format.specs.Reading.{card_of};
ghost use Rattle.refusals.specs.Refusals.{first_of, numbered, told};
ghost use Rattle.state_words.specs.Checks.{state_checks};
ghost use Rattle.draws.specs.Calls.{refusal_for, stepped, stepped_back, drawing, OnlyBefore};

use call_check::check;
use card_read::read;
use filters::filter;
use gates::{step as gate_step, tsc1};
use outputs::next;
use refusals::Refusal;
use selectors::selector;
use state_words::lent;
use stepping::{back, step};

// The checks of every call by their numbers, for callers that have the number a card was refused by, 1 to 9 or 0: that number; or, where it is 0, the first of 10
// and 11 that applies to a state of m words of n bits, or 0. The calls here have the card itself, and begin with call_check::check::look.
pub fn call_refusal(refusal: u8, m: u8, n: u8, state: &[u32]) -> u8
    ensures { result ≡ cond (eqb refusal 0) (first_of (state_checks m n state.now)) refusal }
{
    if refusal != 0 {
        return refusal;
    }
    match lent::state_refusal(m, n, state) {
        Ok(()) => 0,
        Err(told) => told.number(),
    }
}

// One step of the state, or the refusal. The step of a state is a state, and the step back undoes it.
pub fn step(card: &[u8], state: &mut [u32]) -> Result<(), Refusal>
    ensures answer { told result ≡ refusal_for card.now state.old }
    ensures after { state.new ≡ stepped card.now state.old }
    ensures undone { told result ≡ 0 → IsState (card_of card.now) state.new × (step_back (card_of card.now) state.new ≡ state.old) }
{
    let found = read::read(card);
    let values = check::look(&found, state)?;
    let held = lent::load(state);
    if tsc1::is_tsc1(card) {
        lent::store(gate_step::next_state(held), state);
        return Ok(());
    }
    let terms = selector::terms_of(*values);
    let p = step::forward(values);
    let next = step::next_state(terms, &p, held);
    lent::store(next, state);
    Ok(())
}

// One step back, or the refusal. The state after the call is the only one whose step is the state as lent.
pub fn step_back(card: &[u8], state: &mut [u32]) -> Result<(), Refusal>
    ensures answer { told result ≡ refusal_for card.now state.old }
    ensures after { state.new ≡ stepped_back card.now state.old }
    ensures only { told result ≡ 0 → OnlyBefore (card_of card.now) state.new state.old }
{
    let found = read::read(card);
    let values = check::look(&found, state)?;
    let held = lent::load(state);
    let terms = selector::terms_of(*values);
    let p = back::backward(
        &values.table,
        values.words as u32,
        values.odd_power as u32,
        values.even_power as u32,
    );
    let previous = back::previous_state(*values, terms, &p, held);
    lent::store(previous, state);
    Ok(())
}

// One step of the state, and the word of the state that it comes to; or the refusal. A word is below 2^n.
pub fn draw(card: &[u8], state: &mut [u32]) -> Result<u32, Refusal>
    ensures answer { numbered result ≡ drawing card.now state.old }
    ensures after { state.new ≡ stepped card.now state.old }
    ensures narrow { (w : ℕ) → result ≡ Ok w → w < 2 ^ (card_of card.now).width }
{
    let found = read::read(card);
    let values = check::look(&found, state)?;
    let held = lent::load(state);
    // One store for both ways: what stands between them is TSC-1's step and nothing else.
    let drawn = if tsc1::is_tsc1(card) {
        outputs::tsc1::next_output(held)
    } else {
        let terms = selector::terms_of(*values);
        let rotations = filter::rotations_of(*values);
        let p = step::forward(values);
        next::next_output(terms, rotations, &p, held)
    };
    lent::store(drawn.state, state);
    Ok(drawn.word)
}
