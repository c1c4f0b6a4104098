// The step back of a state by value, for an accepted card. The calls on lent slices establish the conditions.
ghost use Rattle.std.specs.Prelude.{◌≡◌, ◌<◌, ◌≤◌};
ghost use Rattle.tsc.specs.Constants.{most_words};
ghost use Rattle.tsc.specs.Coverage.{step_back};
ghost use Rattle.columns.specs.Replace.{IsCycle, IsPowerOf};
ghost use Rattle.stepping.specs.State.{used, holding, undone, Undoes};

use card_table::table;
use columns::few::FEW_WORDS;
use columns::power::Powers;
use columns::{power, replace};
use selectors::selector;
use selectors::selector::Terms;
use tsc::{Card, MOST_WORDS, State, TABLE_SIZE};
use words::arithmetic;

// How often a table of 2^m entries is applied to undo so many applications.
fn undoing(m: u32, times: u32) -> u32
    requires { (0 < m) × (m ≤ most_words) }
    ensures { result ≡ undone m times }
{
    table::entries(m) as u32 - arithmetic::reduce(arithmetic::width_of(m), times)
}

// The table's powers for a step back: they undo those for a step.
pub fn backward(table: &[u8; TABLE_SIZE], m: u32, odd: u32, even: u32) -> Powers
    requires { (0 < m) × (m ≤ most_words) × IsCycle m table.now }
    ensures { IsPowerOf m table.now (undone m odd) result.odd × IsPowerOf m table.now (undone m even) result.even }
{
    let odd_undone = undoing(m, odd);
    let even_undone = undoing(m, even);
    power::powers_of(table, m, odd_undone, even_undone)
}

// The step back of a state, from the lowest column up: the columns found so far are all that the next selector bit depends on. COUNT, at least the card's
// words, is known when this is compiled, so that the loops over words are written out.
fn back_by<const COUNT: usize>(card: Card, terms: Terms, powers: &Powers, s: State) -> State
    requires { Undoes card terms powers.now.odd powers.now.even s × (card.words ≤ COUNT) × (COUNT ≤ most_words) }
    ensures { result ≡ holding (step_back card (used card s)) }
{
    let mut found = State {
        words: [0; MOST_WORDS],
    };
    for i in 0..terms.width.bits {
        let select = selector::selector_by(terms, found, COUNT);
        found = replace::replace_column(powers, s, select, i, found, COUNT);
    }
    found
}

// The step back of a state. What it needs of the card is worked out before.
pub fn previous_state(card: Card, terms: Terms, powers: &Powers, s: State) -> State
    requires { Undoes card terms powers.now.odd powers.now.even s }
    ensures { result ≡ holding (step_back card (used card s)) }
{
    if terms.words as usize <= FEW_WORDS {
        return back_by::<FEW_WORDS>(card, terms, powers, s);
    }
    back_by::<MOST_WORDS>(card, terms, powers, s)
}
