// A card read and written again: an accepted card gives the same bytes.
ghost use Rattle.std.specs.Prelude.{◌≡◌, length};
ghost use Rattle.refusals.specs.Refusals.{numbered};
ghost use Rattle.card_format.specs.Writing.{rewriting, page_rewritten};

use super::write;
use card_read::read;
use refusals::Refusal;

// Any bytes, read as a card and written to a page: their length, or the first of refusals 1 to 9 and 16 that applies, with the page as it was.
pub fn rewrite(card: &[u8], page: &mut [u8]) -> Result<usize, Refusal>
    ensures answer { numbered result ≡ rewriting card.now (length page.old) }
    ensures after { page.new ≡ page_rewritten card.now page.old }
{
    let values = read::read(card)?;
    write::write(values, page)
}
