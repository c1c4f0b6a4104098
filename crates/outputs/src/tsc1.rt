// The words of TSC-1, by its gate formulas: of one step, and of many (document 02, Nine).
ghost use Rattle.std.specs.Prelude.{◌≡◌, ◌++◌, ◌≤◌, length, get_or, drop};
ghost use Rattle.tsc.specs.Step.{orbit};
ghost use Rattle.tsc.specs.Word.{filter1, orbit_words};
ghost use Rattle.gates.specs.Tsc1.{tsc1_card};
ghost use Rattle.stepping.specs.State.{used, Holds, holding};
ghost use Rattle.outputs.specs.Output.{output};

use super::fill;
use super::next::Output;
use gates::step;
use tsc::State;
use words::arithmetic::{Width, add, rotate_left};

// The word of the first four words: filter 1, document 002 (15).
fn word_of(s: State) -> u32
    ensures { result ≡ filter1 32 (λ k. get_or s.words k 0) }
{
    let w = Width {
        bits: 32,
        low: 0xffff_ffff,
    };
    let inner = add(w, rotate_left(w, s.words[0], 9), s.words[1]);
    let rest = add(w, rotate_left(w, s.words[2], 7), s.words[3]);
    add(w, rotate_left(w, inner, 15), rest)
}

// The next state of the orbit with its word.
pub fn next_output(s: State) -> Output
    ensures { result ≡ output tsc1_card (used tsc1_card s) }
{
    let after = step::next_state(s);
    Output {
        state: after,
        word: word_of(after),
    }
}

// The words of the next states of the orbit, so many of them, over the first words lent, and the last of these states. The row's caller has a state of TSC-1 and
// so much room.
pub fn fill_words(s: State, count: usize, words: &mut [u32]) -> State
    requires { Holds tsc1_card s × (count ≤ length words.old) }
    ensures value { result ≡ holding (orbit tsc1_card (used tsc1_card s) count) }
    ensures words_after { words.new ≡ orbit_words tsc1_card (used tsc1_card s) count ++ drop count words.old }
{
    fill::fill_by(next_output, s, count, words)
}
