// The lines of cases on records.
use super::calls;
use case_answers::answer;
use case_fields::line;
use case_fields::list::HALF;
use case_numbers::number;
use std::io;
use std::io::Write;

// desk RECORD
pub fn replay_desk<W: Write>(out: &mut W, line: &[u8], bytes: &[u8]) -> io::Result<()> {
    answer::replay_alone(out, line, bytes, |out, bytes| calls::print_desk(out, bytes))
}

// cab TRUCK RECORD
pub fn replay_cab<W: Write>(out: &mut W, line: &[u8], bytes: &[u8]) -> io::Result<()> {
    match (
        line::fields(line),
        number::number_of(line::field(line, 1), false),
    ) {
        (3, Some(truck)) if truck <= HALF => calls::print_cab(out, truck as u16, bytes),
        _ => answer::print_syntax(out),
    }
}
