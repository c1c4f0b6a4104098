// One column of a state: read, and put in, of `count` words, at least m, which callers name by a constant, so that the compiler writes the loops out; no const
// parameter, which would ask of callers that it is one. Callers have i below the width of an accepted card.
ghost use Rattle.std.specs.Prelude.{◌≡◌, cond, ℕ, ◌^◌, ◌<◌, ◌≤◌, eqb, get_or, take};
ghost use Rattle.cycle.specs.Notation.{bit};
ghost use Rattle.tsc.specs.Constants.{most_words, widest_width};
ghost use Rattle.tsc.specs.Columns.{column};
ghost use Rattle.columns.specs.Replace.{with_column};

use tsc::State;
use words::mask;

// Column i of the first words of a state, from the last of them to the first. The step back goes over the columns of a width, and over few words or all.
pub fn column_of(s: State, i: u32, count: usize) -> u32
    requires { (i < widest_width) × (count ≤ most_words) }
    ensures { result ≡ column i (take count s.words) }
{
    let mut c: u32 = 0;
    for k in (0..count).rev() {
        c = mask::bit_of(s.words[k], i) + 2 * c;
    }
    c
}

// A state of i columns with one more above them in its first words: odd where the selector has a 1 in place i, even where it has a 0. Both results are put
// into place i and joined by the selector as a whole, since a mask of its one bit would be compiled to a branch. The step back has nothing from column i up yet.
pub fn with_column(s: State, i: u32, selector: u32, odd: u32, even: u32, count: usize) -> State
    requires i_lt_widest_width { (i < widest_width) × (count ≤ most_words) }
    requires by_index { (k : ℕ) → k < most_words → get_or s.words k 0 < 2 ^ i }
    ensures { result.words ≡ with_column count i (cond (eqb (bit i selector) 1) odd even) s.words }
{
    let mut out = s;
    for k in 0..count {
        let odd_bit = mask::bit_of(odd, k as u32) << i;
        let even_bit = mask::bit_of(even, k as u32) << i;
        out.words[k] = s.words[k] + mask::join(selector, odd_bit, even_bit);
    }
    out
}
