// A step of a state by value, with its word. Draw, pick and rows of more than four words call it once nothing is refused, for other cards than TSC-1's.
ghost use Rattle.std.specs.Prelude.{◌≡◌};
ghost use Rattle.tsc.specs.declared.Card.{Card};
ghost use Rattle.filters.specs.Rotations.{rotations_of};
ghost use Rattle.stepping.specs.State.{used, Steps};
ghost use Rattle.outputs.specs.Output.{output};

use columns::power::Powers;
use filters::filter;
use filters::filter::Rotations;
use selectors::selector::Terms;
use stepping::step;
use tsc::State;

// The state that a step comes to, and its word.
#[derive(Clone, Copy)]
pub struct Output {
    pub state: State,
    pub word: u32,
}

// The next state of the orbit with its word, by what a call works out once: the selector's terms, the filter's rotations and the powers.
pub fn next_output(terms: Terms, rotations: Rotations, powers: &Powers, s: State) -> Output
    requires { (card : Card) × Steps card terms powers.now.odd powers.now.even s × (rotations ≡ rotations_of card) }
    ensures { (card : Card) → Steps card terms powers.now.odd powers.now.even s → rotations ≡ rotations_of card → result ≡ output card (used card s) }
{
    let after = step::next_state(terms, powers, s);
    Output {
        state: after,
        word: filter::word_by(rotations, after),
    }
}
