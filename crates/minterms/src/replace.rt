// Columns put through a power of the table, entry by entry: the columns that hold an entry get its image. The minterms of all entries part the columns.
ghost use Rattle.std.specs.Prelude.{◌≡◌, cond, ℕ, ◌*◌, ◌≤◌, eqb, get_or};
ghost use Rattle.std.specs.Int.Bits.{bit_or};
ghost use Rattle.cycle.specs.Notation.{bit};
ghost use Rattle.tsc.specs.Columns.{column};
ghost use Rattle.columns.specs.Few.{few_words};
ghost use Rattle.columns.specs.Replace.{HasColumns, Replaced};

use super::minterm;
use columns::few::{FEW_ENTRIES, FEW_WORDS};
use columns::power::Powers;
use tsc::{MOST_WORDS, State};
use words::mask;

// A state with an entry's image added to the columns of t: the odd power's where the selector has a 1, the even power's where it has a 0.
fn put(s: State, t: u32, selector: u32, odd: u32, even: u32) -> State
    ensures has_columns { HasColumns few_words result.words (λ i. bit_or (column i s.words) (bit i t * cond (eqb (bit i selector) 1) odd even)) }
    ensures by_index { (k : ℕ) → few_words ≤ k → get_or result.words k 0 ≡ get_or s.words k 0 }
{
    let mut out = s;
    for k in 0..FEW_WORDS {
        let odd_bits = mask::spread(odd, k as u32);
        let even_bits = mask::spread(even, k as u32);
        out.words[k] = s.words[k] | (t & mask::join(selector, odd_bits, even_bits));
    }
    out
}

// The columns in `low` of the first words, each put through the power that its selector bit picks.
pub fn replace_columns(powers: &Powers, s: State, selector: u32, low: u32) -> State
    ensures { Replaced few_words powers.now.odd powers.now.even s.words selector low result.words }
{
    let mut out = State {
        words: [0; MOST_WORDS],
    };
    for c in 0..FEW_ENTRIES {
        let odd_image = u32::from(powers.odd[c]);
        let even_image = u32::from(powers.even[c]);
        let holders = minterm::minterm_of(low, s, c as u32);
        out = put(out, holders, selector, odd_image, even_image);
    }
    out
}
