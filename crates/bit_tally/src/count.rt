// Words as bits on a page, counted as they are put there.
ghost use Rattle.std.specs.Prelude.{◌≡◌, ◌++◌, ◌<◌, ◌≤◌, length, drop};
ghost use Rattle.tsc.specs.Constants.{widest_width};
ghost use Rattle.bit_counts.specs.Bits.{word_bits, bits_of, digit, text};
ghost use Rattle.bit_counts.specs.Counts.{counts_of};
ghost use Rattle.bit_tally.specs.Tally.{tally_of_none, tallied, HasRoom, HasPlace, with_text};

use super::tally::Tally;
use bit_counts::Counts;
use words::mask;

// A bit as ASCII.
fn digit_of(bit: u32) -> u8
    requires { bit < 2 }
    ensures { result ≡ digit bit }
{
    b'0' + bit as u8
}

// The n bits of a word, the top one first, at the start of a part of the page.
fn put_word(t: Tally, word: u32, n: u32, part: &mut [u8]) -> Tally
    requires { (n ≤ widest_width) × (n ≤ length part.old) × HasRoom t n }
    ensures counted { result ≡ tallied t (word_bits n word) }
    ensures page { part.new ≡ text (word_bits n word) ++ drop n part.old }
{
    let mut tally = t;
    for i in 0..n {
        let bit = mask::bit_of(word, n - 1 - i);
        part[i as usize] = digit_of(bit);
        tally = tally.with_bit(bit);
    }
    tally
}

// The words of a strip, one after the other.
fn put_words(n: u32, strip: &[u32], page: &mut [u8]) -> Tally
    requires { HasPlace n strip.now page.old }
    ensures counted { result ≡ tallied tally_of_none (bits_of n strip.now) }
    ensures page { page.new ≡ with_text n strip.now page.old }
{
    let mut tally = Tally::none();
    for (k, word) in strip.iter().enumerate() {
        let at = n as usize * k;
        tally = put_word(tally, *word, n, &mut page[at..]);
    }
    tally
}

// The bits of a strip at the front of the page, and what is counted of them. The call has found that words and page are as is required.
pub fn count_bits(n: u32, strip: &[u32], page: &mut [u8]) -> Counts
    requires { HasPlace n strip.now page.old }
    ensures counted { result ≡ counts_of (bits_of n strip.now) }
    ensures page { page.new ≡ with_text n strip.now page.old }
{
    put_words(n, strip, page).counts()
}
