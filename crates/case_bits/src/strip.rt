// The strip of a case: it may have many more words than other lists have numbers.
ghost use Rattle.std.specs.Prelude.{◌≡◌};
ghost use Rattle.case_bits.specs.Strip.{words_in};

use case_fields::list;
use case_fields::list::{Numbers, WORD};

// The most words of a strip: room for the longest strip of document 02, and for strips that are too long.
pub const STRIP_ROOM: usize = 16400;

// Words in hex, commas between.
pub fn words_of(field: &[u8]) -> Option<Numbers<STRIP_ROOM>>
    ensures { result ≡ words_in field.now }
{
    list::numbers_of(field, true, WORD)
}
