// The minterm of an entry: the columns that hold it, as a mask. Callers go through the entries of a table.
ghost use Rattle.std.specs.Prelude.{◌*◌, ◌^◌, ◌<◌, eqb, take};
ghost use Rattle.cycle.specs.Notation.{one, bit};
ghost use Rattle.tsc.specs.Columns.{column};
ghost use Rattle.words.specs.Masks.{HasBits};
ghost use Rattle.columns.specs.Few.{few_words};

use columns::few::FEW_WORDS;
use tsc::State;
use words::mask;

// The columns of the first words of s that hold c, of those in `low`.
pub fn minterm_of(low: u32, s: State, c: u32) -> u32
    requires { c < 2 ^ few_words }
    ensures { HasBits result (λ i. bit i low * one (eqb (column i (take few_words s.words)) c)) }
{
    let mut t = low;
    for k in (0..FEW_WORDS).rev() {
        t = t & (s.words[k] ^ !mask::spread(c, k as u32));
    }
    t
}
