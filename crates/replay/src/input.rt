// The input, a case a line.
ghost use Rattle.std.specs.Prelude.{◌≡◌, replicate};

use super::line;
use std::io;
use std::io::{Read, Write};

// One more than the most bytes of input, 5 MiB.
const SIZE: usize = 5242881;

// Every line, the last also where no newline ends it.
fn replay_all<W: Write>(out: &mut W, input: &[u8]) -> io::Result<()> {
    for ended in input.split_inclusive(|byte| *byte == b'\n') {
        line::replay_line(out, ended.strip_suffix(b"\n").unwrap_or(ended))?;
    }
    Ok(())
}

// Zeros, on the stack, of which a program has 8 MiB. In a function of its own, so that no other proof sees so many.
fn buffer() -> [u8; SIZE]
    ensures { result ≡ replicate 5242881 0 }
{
    [0; SIZE]
}

// The input up to its end; of one that is too long no case is replayed.
pub fn replay_input<R: Read, W: Write>(from: &mut R, out: &mut W) -> io::Result<()> {
    let mut input = buffer();
    let n = printing::read_full(from, &mut input)?;
    if n == SIZE {
        return out.write_all(b"too long\n");
    }
    replay_all(out, &input[..n])
}
