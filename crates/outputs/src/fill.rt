// Words of an orbit one after the other, by whichever step answers a state with its next one.
ghost use Rattle.std.specs.Prelude.{◌≡◌, ◌++◌, ◌≤◌, length, drop};
ghost use Rattle.tsc.specs.declared.Card.{Card};
ghost use Rattle.tsc.specs.Step.{orbit};
ghost use Rattle.tsc.specs.Word.{orbit_words};
ghost use Rattle.stepping.specs.State.{used, Holds, holding};
ghost use Rattle.outputs.specs.Output.{Answers};

use super::next::Output;
use tsc::State;

// The words of the next states of the orbit, so many of them, over the first words lent, and the last of these states.
pub fn fill_by<F: Fn(State) -> Output>(next: F, s: State, count: usize, words: &mut [u32]) -> State
    requires answers { (card : Card) × Answers card (F.pre next) (F.post next) × Holds card s }
    requires room { count ≤ length words.old }
    ensures { (card : Card) → Answers card (F.pre next) (F.post next) → Holds card s → (result ≡ holding (orbit card (used card s) count)) × (words.new ≡ orbit_words card (used card s) count ++ drop count words.old) }
{
    let mut held = s;
    for k in 0..count {
        let drawn = next(held);
        words[k] = drawn.word;
        held = drawn.state;
    }
    held
}
