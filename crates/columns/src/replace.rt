// A column put through a power of the table. Callers go through the columns of an accepted card from the lowest up, so that the columns put in so far
// have i bits.
ghost use Rattle.std.specs.Prelude.{◌≡◌, ℕ, ◌^◌, ◌<◌, ◌≤◌, get_or, take};
ghost use Rattle.cycle.specs.Notation.{bit};
ghost use Rattle.tsc.specs.Constants.{most_words, widest_width};
ghost use Rattle.tsc.specs.Columns.{column};
ghost use Rattle.columns.specs.Replace.{with_column, image_of};

use super::column;
use super::power::Powers;
use tsc::State;

// Column i of s, put through the table, as column i of a state that has the columns below it, as the step back has found them.
pub fn replace_column(
    powers: &Powers,
    s: State,
    selector: u32,
    i: u32,
    below: State,
    count: usize,
) -> State
    requires i_lt_widest_width { (i < widest_width) × (count ≤ most_words) }
    requires by_index { (k : ℕ) → k < most_words → get_or below.words k 0 < 2 ^ i }
    ensures { result.words ≡ with_column count i (image_of powers.now.odd powers.now.even (bit i selector) (column i (take count s.words))) below.words }
{
    let c = column::column_of(s, i, count) as usize;
    let odd_image = u32::from(powers.odd[c]);
    let even_image = u32::from(powers.even[c]);
    column::with_column(below, i, selector, odd_image, even_image, count)
}
