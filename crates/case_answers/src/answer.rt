// What answers are made of, printed to a writer.
ghost use Rattle.std.specs.Prelude.{◌≡◌};
ghost use Rattle.card_format.specs.Fields.{same};
ghost use Rattle.case_answers.specs.Page.{untouched_page};

use case_fields::line;
use std::io::Write;
use std::{fmt, io};

// The most bytes of a page.
pub const PAGE: usize = 600;

// A page as it is lent for a card or a record.
pub fn untouched() -> [u8; PAGE]
    ensures { result ≡ untouched_page }
{
    [0xa5; PAGE]
}

// Words as eight hex digits each, commas between; - where there are none.
#[derive(Clone, Copy)]
pub struct Words<'a>(pub &'a [u32]);

impl<'a> fmt::Display for Words<'a> {
    fn fmt<W: fmt::Write>(&self, f: &mut fmt::Formatter<W>) -> fmt::Result {
        if self.0.is_empty() {
            return f.write_str("-");
        }
        let mut comma = "";
        for word in self.0 {
            write!(f, "{comma}{word:08x}")?;
            comma = ",";
        }
        Ok(())
    }
}

// Numbers in decimal, commas between.
#[derive(Clone, Copy)]
pub struct Entries<'a, T>(pub &'a [T]);

impl<'a, T: fmt::Display> fmt::Display for Entries<'a, T> {
    fn fmt<W: fmt::Write>(&self, f: &mut fmt::Formatter<W>) -> fmt::Result {
        let mut comma = "";
        for entry in self.0 {
            write!(f, "{comma}{entry}")?;
            comma = ",";
        }
        Ok(())
    }
}

// Bytes as two hex digits each.
#[derive(Clone, Copy)]
pub struct Bytes<'a>(pub &'a [u8]);

impl<'a> fmt::Display for Bytes<'a> {
    fn fmt<W: fmt::Write>(&self, f: &mut fmt::Formatter<W>) -> fmt::Result {
        for byte in self.0 {
            write!(f, "{byte:02x}")?;
        }
        Ok(())
    }
}

// A shovel, how many ties there were and how many words were taken.
#[derive(Clone, Copy)]
pub struct Choice {
    pub shovel: u16,
    pub ties: u8,
    pub taken: u8,
}

impl fmt::Display for Choice {
    fn fmt<W: fmt::Write>(&self, f: &mut fmt::Formatter<W>) -> fmt::Result {
        let Choice {
            shovel,
            ties,
            taken,
        } = *self;
        write!(f, "shovel {shovel} ties {ties} taken {taken}")
    }
}

// The answer to a line that is no case.
pub fn print_syntax<W: Write>(out: &mut W) -> io::Result<()> {
    out.write_all(b"syntax\n")
}

// The answer to a refused call: the number, and CHANGED where state or page were not left as lent, which the contracts of the calls rule out.
pub fn print_refused<W: Write, R: fmt::Display + Drop>(
    out: &mut W,
    refusal: R,
    kept: bool,
) -> io::Result<()> {
    let changed = if kept { "" } else { " CHANGED" };
    writeln!(out, "refused {refusal}{changed}")
}

// A line of two fields, its word and the bytes that are all the call takes.
pub fn replay_alone<W: Write, F: FnOnce(&mut W, &[u8]) -> io::Result<()> + Drop>(
    out: &mut W,
    line: &[u8],
    bytes: &[u8],
    call: F,
) -> io::Result<()>
    requires { F.IsAlwaysCallable call }
{
    match line::fields(line) {
        2 => call(out, bytes),
        _ => print_syntax(out),
    }
}

// Whether words are the same as those that were lent. No contract speaks of what is printed, so a clause can hold this only here, where the edit
// changed_state_told_as_kept tries it.
pub fn same_words(a: &[u32], b: &[u32]) -> bool
    ensures { result ≡ same a.now b.now }
{
    a == b
}
