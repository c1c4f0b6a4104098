// A line of the input, by its word. All of it is read before the call is made, and a line that is no case is answered by syntax.
use case_answers::answer;
use case_bits::bits;
use case_cards::cards;
use case_fields::{line, list};
use case_map::lines as map_lines;
use case_records::lines;
use case_states::states;
use case_strips::strips;
use std::io;
use std::io::Write;

// A line on the bytes of a card or a record, by its word.
fn replay_on<W: Write>(out: &mut W, line: &[u8], bytes: &[u8]) -> io::Result<()> {
    match line::field(line, 0) {
        b"check" => cards::replay_check(out, line, bytes),
        b"read" => cards::replay_read(out, line, bytes),
        b"badbit" => cards::replay_bad_places(out, line, bytes),
        b"step" => states::replay_step(out, line, bytes),
        b"back" => states::replay_back(out, line, bytes),
        b"draw" => states::replay_draw(out, line, bytes),
        b"words" => states::replay_words(out, line, bytes),
        b"strip" => strips::replay_strip(out, line, bytes),
        b"nist" => bits::replay_nist(out, line, bytes),
        b"pick" => states::replay_pick(out, line, bytes),
        b"margin" => states::replay_margin(out, line, bytes),
        b"mappick" => map_lines::replay_map_pick(out, line, bytes),
        b"recpick" => states::replay_recorded(out, line, bytes),
        b"desk" => lines::replay_desk(out, line, bytes),
        b"cab" => lines::replay_cab(out, line, bytes),
        _ => answer::print_syntax(out),
    }
}

// A line with the bytes of a card or a record in field k.
fn replay_bytes<W: Write>(out: &mut W, line: &[u8], k: usize) -> io::Result<()> {
    match list::bytes_of(line::field(line, k)) {
        Some(numbers) => {
            let bytes = numbers.bytes();
            replay_on(out, line, &bytes[..numbers.len()])
        }
        None => answer::print_syntax(out),
    }
}

// A line: a comment gets no answer, anything else one.
pub fn replay_line<W: Write>(out: &mut W, line: &[u8]) -> io::Result<()> {
    if line.starts_with(b"#") {
        return Ok(());
    }
    match line::field(line, 0) {
        b"write" => cards::replay_write(out, line),
        b"within" => map_lines::replay_within(out, line),
        b"cab" => replay_bytes(out, line, 2),
        _ => replay_bytes(out, line, 1),
    }
}
