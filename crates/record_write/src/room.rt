// The room that a record needs on a page.
ghost use Rattle.std.specs.Prelude.{◌≡◌};
ghost use Rattle.records.specs.Fields.{lacks_room};

use tsc::MOST_WORDS;

// Whether a page of `room` bytes has none for a record of a state of m words, or there is no such state.
pub fn lacks_room(m: usize, room: usize) -> bool
    ensures { result ≡ lacks_room m room }
{
    MOST_WORDS < m || room < 8 + 4 * m
}
