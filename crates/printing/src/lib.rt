// Words printed and input read, for the programs.
#![tactic(auto)]

ghost use Rattle.std.specs.Prelude.{◌≤◌, length, IfOk};

use std::io::Read;
use std::{fmt, io};

// Words as eight hex digits each, after a space.
#[derive(Clone, Copy)]
pub struct Words<'a>(pub &'a [u32]);

impl<'a> fmt::Display for Words<'a> {
    fn fmt<W: fmt::Write>(&self, f: &mut fmt::Formatter<W>) -> fmt::Result {
        for word in self.0 {
            write!(f, " {word:08x}")?;
        }
        Ok(())
    }
}

// Reads to the end of the input or of the slice, how many bytes then stand at its front: a short read is not the end.
pub fn read_full<R: Read>(from: &mut R, bytes: &mut [u8]) -> io::Result<usize>
    ensures { IfOk result (λ n. n ≤ length bytes.new) }
{
    let mut at = 0;
    // A `while`: how many reads it takes is known to no iterator.
    while at < bytes.len() {
        let more = from.read(&mut bytes[at..])?;
        if more == 0 {
            break;
        }
        at += more;
    }
    Ok(at)
}
