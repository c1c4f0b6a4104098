// Writing a card: refusals 2, 6 to 9 and 16, and the bytes.
ghost use Rattle.std.specs.Prelude.{◌≡◌, length};
ghost use Rattle.refusals.specs.Refusals.{numbered};
ghost use Rattle.card_format.specs.Writing.{writing, page_after};

use card_encode::{put, values};
use refusals::Refusal;
use tsc::Card;

// A card's values as bytes on a page: the length, or the first of refusals 2, 6, 7, 8, 9, 16 that applies, with the page as it was.
pub fn write(card: Card, page: &mut [u8]) -> Result<usize, Refusal>
    ensures value { numbered result ≡ writing card (length page.old) }
    ensures page_after { page.new ≡ page_after card page.old }
{
    values::value_refusal(card)?;
    let o = put::outline_of(card);
    if page.len() < o.length {
        return Err(Refusal::BufferTooSmall);
    }
    put::put_card(card, o.map, page);
    Ok(o.length)
}
