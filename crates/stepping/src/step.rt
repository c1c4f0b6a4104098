// The step of a state by value, for an accepted card. The calls on lent slices establish the conditions.
ghost use Rattle.std.specs.Prelude.{◌≡◌, ◌<◌, ◌≤◌};
ghost use Rattle.tsc.specs.declared.Card.{Card};
ghost use Rattle.tsc.specs.Step.{step};
ghost use Rattle.tsc.specs.Constants.{most_words};
ghost use Rattle.words.specs.Widths.{IsWidth};
ghost use Rattle.columns.specs.Replace.{IsCycle, IsPowerOf};
ghost use Rattle.stepping.specs.State.{used, holding, Steps};

use columns::few::FEW_WORDS;
use columns::power;
use columns::power::Powers;
use selectors::selector;
use selectors::selector::Terms;
use tsc::{Card, MOST_WORDS, State};

// The table's powers for a step, of an accepted card.
pub fn forward(card: &Card) -> Powers
    requires { (0 < card.now.words) × (card.now.words ≤ most_words) × IsCycle card.now.words card.now.table }
    ensures { IsPowerOf card.now.words card.now.table card.now.odd_power result.odd × IsPowerOf card.now.words card.now.table card.now.even_power result.even }
{
    power::powers_of(
        &card.table,
        u32::from(card.words),
        u32::from(card.odd_power),
        u32::from(card.even_power),
    )
}

// The step of a state, all columns at once: entry by entry for few words, else eight columns at a time. The selector's terms and the powers are worked out once
// for all the steps of a call.
pub fn next_state(terms: Terms, powers: &Powers, s: State) -> State
    requires { IsWidth terms.width }
    ensures { (card : Card) → Steps card terms powers.now.odd powers.now.even s → result ≡ holding (step card (used card s)) }
{
    if terms.words as usize <= FEW_WORDS {
        let select = selector::selector_by(terms, s, FEW_WORDS);
        return minterms::replace::replace_columns(powers, s, select, terms.width.low);
    }
    let select = selector::selector_by(terms, s, MOST_WORDS);
    transposition::replace::replace_columns(powers, s, select, terms.width.low)
}
