// The count on lent slices: any bytes as a card, any words as a strip, any page. A refusal leaves the page as lent.
ghost use Rattle.std.specs.Prelude.{◌≡◌, length};
ghost use Rattle.refusals.specs.Refusals.{numbered};
ghost use Rattle.bit_counts.specs.Calls.{counting_bits, bit_page};

use bit_counts::Counts;
use bit_strip::check::strip_refusal;
use bit_tally::count;
use card::check;
use refusals::Refusal;

// The bits of the strip at the front of the page, as text, and what is counted of them; or the first refusal of 1 to 9 and 22 to 24 that applies.
pub fn bit_counts(card: &[u8], strip: &[u32], page: &mut [u8]) -> Result<Counts, Refusal>
    ensures answer { numbered result ≡ counting_bits card.now strip.now (length page.old) }
    ensures page { page.new ≡ bit_page card.now strip.now page.old }
{
    let values = check::accept(card)?;
    strip_refusal(values.width, strip, page.len())?;
    let n = values.width as u32;
    Ok(count::count_bits(n, strip, page))
}
