// The tree: each word of the state, from the last to the first, halves the leaves, and the selector chooses last.
ghost use Rattle.std.specs.Prelude.{List, ℕ, ◌*◌, ◌≤◌, take};
ghost use Rattle.cycle.specs.Notation.{bit};
ghost use Rattle.tsc.specs.Columns.{column};
ghost use Rattle.columns.specs.Few.{few_words};
ghost use Rattle.columns.specs.Replace.{Replaced};
ghost use Rattle.multiplexer.specs.Leaves.{leaf_count, HasLeaves, HasPicked};

use super::leaves::LEAVES;
use columns::few::FEW_WORDS;
use tsc::{MOST_WORDS, State};
use words::mask;

// The first `size` words, each chosen in every place: the one `size` further on where x has a 1, itself where it has a 0.
fn chosen(f: [u32; LEAVES], size: usize, x: u32) -> [u32; LEAVES]
    requires { 2 * size ≤ leaf_count }
    ensures { HasPicked size f (λ i. bit i x) result }
{
    let mut g = f;
    for j in 0..size {
        g[j] = mask::join(x, f[size + j], f[j]);
    }
    g
}

// By the words, from the last to the first: what is left are the bits of both images of each column.
fn looked_up(leaves: [u32; LEAVES], s: State) -> [u32; LEAVES]
    ensures { HasPicked (2 * few_words) leaves (λ i. column i (take few_words s.words)) result }
{
    let mut f = leaves;
    let mut size = LEAVES;
    for k in (0..FEW_WORDS).rev() {
        size = size / 2;
        let g = chosen(f, size, s.words[k]);
        f = g;
    }
    f
}

// The columns in `low` of the first words, each put through the power that its selector bit picks, by the leaves of the powers, which callers have from
// `leaves_of`.
pub fn replace_columns(leaves: [u32; LEAVES], s: State, selector: u32, low: u32) -> State
    ensures { (odd even : List ℕ) → HasLeaves odd even leaves → Replaced few_words odd even s.words selector low result.words }
{
    let f = looked_up(leaves, s);
    let mut out = State {
        words: [0; MOST_WORDS],
    };
    for k in 0..FEW_WORDS {
        out.words[k] = low & mask::join(selector, f[FEW_WORDS + k], f[k]);
    }
    out
}
