// A count of bits, with its answer and the whole page printed. The page is lent with every byte a full stop, so that bytes that are not written are seen, and
// compared with that after a refusal. That it is not more than the most, the line's reader has seen.
ghost use Rattle.std.specs.Prelude.{◌≡◌, ◌≤◌};
ghost use Rattle.case_answers.specs.Page.{most_page};
ghost use Rattle.case_bits.specs.Page.{dotted_page};

use bit_count::call;
use bit_counts::Counts;
use case_answers::answer;
use case_answers::answer::PAGE;
use std::io;
use std::io::Write;

// A page as it is lent.
fn dotted() -> [u8; PAGE]
    ensures { result ≡ dotted_page }
{
    [b'.'; PAGE]
}

// The four integers, and the bytes of the page as they are; - where there are none.
fn print_counted<W: Write>(out: &mut W, counts: Counts, page: &[u8]) -> io::Result<()> {
    let Counts {
        balance,
        forward,
        backward,
        runs,
    } = counts;
    write!(out, "counts {balance} {forward} {backward} {runs} page ")?;
    if page.is_empty() {
        out.write_all(b"-")?;
    }
    out.write_all(page)?;
    out.write_all(b"\n")
}

// A count of bits on a page of so many bytes.
pub fn print_bits<W: Write>(out: &mut W, card: &[u8], strip: &[u32], size: usize) -> io::Result<()>
    requires { size ≤ most_page }
{
    let lent = dotted();
    let mut page = lent;
    match call::bit_counts(card, strip, &mut page[..size]) {
        Ok(counts) => print_counted(out, counts, &page[..size]),
        Err(refusal) => answer::print_refused(out, refusal, page == lent),
    }
}
