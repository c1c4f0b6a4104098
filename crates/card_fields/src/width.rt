// Words against a width.
ghost use Rattle.std.specs.Prelude.{◌≡◌, ◌^◌, ltb, length, get_or};
ghost use Rattle.cycle.specs.Notation.{every};

use super::field;

// Whether each word has n bits: conditions 11 and 23 hold where one has more.
pub fn all_fit(words: &[u32], n: u8) -> bool
    ensures { result ≡ every (length words.now) (λ k. ltb (get_or words.now k 0) (2 ^ n)) }
{
    words.iter().all(|&word| !field::exceeds(word, n as u32))
}
