// Words of the orbit one after the other.
ghost use Rattle.std.specs.Prelude.{◌≡◌, List, ◌++◌, ℕ, ◌≤◌, length, drop};
ghost use Rattle.tsc.specs.declared.Card.{Card};
ghost use Rattle.tsc.specs.Step.{orbit};
ghost use Rattle.tsc.specs.Word.{orbit_words};
ghost use Rattle.card_format.specs.Verdict.{Accepted};
ghost use Rattle.columns.specs.Few.{few_words};
ghost use Rattle.filters.specs.Rotations.{rotations_of};
ghost use Rattle.gates.specs.Tsc1.{OnlyTsc1};
ghost use Rattle.multiplexer.specs.Leaves.{HasLeaves};
ghost use Rattle.stepping.specs.State.{used, Holds, holding, Steps};
ghost use Rattle.outputs.specs.Output.{output, StepsByLeaves};

use super::next::Output;
use super::{fill, next, tsc1};
use columns::few::FEW_WORDS;
use filters::filter;
use filters::filter::Rotations;
use multiplexer::leaves::LEAVES;
use multiplexer::{leaves, tree};
use selectors::selector;
use selectors::selector::Terms;
use stepping::step;
use tsc::{Card, State};

// The next state of the orbit with its word, as `next_output` gives it, for the many words of a row of a card of few words: by the leaves of the powers.
fn next_in_row(terms: Terms, leaves: [u32; LEAVES], rotations: Rotations, s: State) -> Output
    requires { (card : Card) × StepsByLeaves card terms leaves rotations s }
    ensures { (card : Card) → StepsByLeaves card terms leaves rotations s → result ≡ output card (used card s) }
{
    let select = selector::selector_by(terms, s, FEW_WORDS);
    let after = tree::replace_columns(leaves, s, select, terms.width.low);
    Output {
        state: after,
        word: filter::filtered_by(rotations, after),
    }
}

// The words of the next states of the orbit, so many of them, over the first words lent, and the last of these states, for a card of few words.
fn fill_few(card: Card, s: State, count: usize, words: &mut [u32]) -> State
    requires { Accepted card × Holds card s × (card.words ≤ few_words) × (count ≤ length words.old) }
    ensures value { result ≡ holding (orbit card (used card s) count) }
    ensures words_after { words.new ≡ orbit_words card (used card s) count ++ drop count words.old }
{
    let p = step::forward(&card);
    let terms = selector::terms_of(card);
    let rotations = filter::rotations_of(card);
    let leaves = leaves::leaves_of(&p);
    fill::fill_by(
        |state: State| next_in_row(terms, leaves, rotations, state),
        s,
        count,
        words,
    )
}

// The same for a card of more words.
fn fill_many(card: Card, s: State, count: usize, words: &mut [u32]) -> State
    requires { Accepted card × Holds card s × (count ≤ length words.old) }
    ensures value { result ≡ holding (orbit card (used card s) count) }
    ensures words_after { words.new ≡ orbit_words card (used card s) count ++ drop count words.old }
{
    let p = step::forward(&card);
    let terms = selector::terms_of(card);
    let rotations = filter::rotations_of(card);
    fill::fill_by(
        |state: State| next::next_output(terms, rotations, &p, state),
        s,
        count,
        words,
    )
}

// The words of the next states of the orbit, so many of them, over the first words lent, and the last of these states; by the gate formulas where the caller
// has found TSC-1's card. What the steps need of another card is worked out once. Fill and margin call it once nothing is refused, and so there is room.
pub fn fill_words(card: Card, is_tsc1: bool, s: State, count: usize, words: &mut [u32]) -> State
    requires { Accepted card × Holds card s × (count ≤ length words.old) × OnlyTsc1 is_tsc1 card }
    ensures value { result ≡ holding (orbit card (used card s) count) }
    ensures words_after { words.new ≡ orbit_words card (used card s) count ++ drop count words.old }
{
    if is_tsc1 {
        return tsc1::fill_words(s, count, words);
    }
    if card.words as usize <= FEW_WORDS {
        return fill_few(card, s, count, words);
    }
    fill_many(card, s, count, words)
}
