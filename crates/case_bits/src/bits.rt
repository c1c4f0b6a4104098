// The line of a case on the bits of a strip.
use super::{calls, strip};
use case_answers::answer;
use case_answers::answer::PAGE;
use case_fields::line;
use case_numbers::number;
use std::io;
use std::io::Write;

// nist CARD STRIP PAGELEN. Not put in line, so that its frame, which has the strip of 64 KiB more than once, is there for its lines alone.
#[inline(never)]
pub fn replay_nist<W: Write>(out: &mut W, line: &[u8], card: &[u8]) -> io::Result<()> {
    let words = strip::words_of(line::field(line, 2));
    let size = number::number_of(line::field(line, 3), false);
    match (line::fields(line), words, size) {
        (4, Some(words), Some(size)) if size as usize <= PAGE => {
            calls::print_bits(out, card, words.as_slice(), size as usize)
        }
        _ => answer::print_syntax(out),
    }
}
