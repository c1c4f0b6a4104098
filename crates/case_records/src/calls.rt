// What desk and cab are answered, printed.
use case_answers::answer;
use case_answers::answer::Words;
use record::{order, read};
use records::Record;
use std::io::Write;
use std::{fmt, io};
use tsc::MOST_WORDS;

// A field that may lack.
#[derive(Clone, Copy)]
struct Field<T>(Option<T>);

impl<T: fmt::Display> fmt::Display for Field<T> {
    fn fmt<W: fmt::Write>(&self, f: &mut fmt::Formatter<W>) -> fmt::Result {
        match &self.0 {
            Some(value) => write!(f, "{value}"),
            None => f.write_str("absent"),
        }
    }
}

// Every field of a record.
fn print_fields<W: Write>(out: &mut W, r: Record) -> io::Result<()> {
    let truck = r.truck;
    let shovel = r.shovel;
    let ties = Field(r.ties);
    let taken = Field(r.taken);
    write!(
        out,
        "truck {truck} shovel {shovel} ties {ties} taken {taken} state "
    )?;
    match r.words {
        Some(m) => {
            let held = Words(&r.state.words[..MOST_WORDS.min(m as usize)]);
            writeln!(out, "{held}")
        }
        None => out.write_all(b"absent\n"),
    }
}

// What the desk is answered.
pub fn print_desk<W: Write>(out: &mut W, bytes: &[u8]) -> io::Result<()> {
    match read::read_record(bytes) {
        Ok(fields) => print_fields(out, fields),
        Err(refusal) => answer::print_refused(out, refusal, true),
    }
}

// What the cab of a truck is answered.
pub fn print_cab<W: Write>(out: &mut W, truck: u16, bytes: &[u8]) -> io::Result<()> {
    match order::order_for(truck, bytes) {
        Ok(shovel) => writeln!(out, "shovel {shovel}"),
        Err(refusal) => answer::print_refused(out, refusal, true),
    }
}
