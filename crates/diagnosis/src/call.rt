// The bad bit of a table on lent bytes: any bytes.
ghost use Rattle.std.specs.Prelude.{◌≡◌, ◌^◌, ◌≤◌, IfOk, length};
ghost use Rattle.cycle.specs.Notation.{count};
ghost use Rattle.tsc.specs.Constants.{most_words};
ghost use Rattle.refusals.specs.Refusals.{first_of, number, told};
ghost use Rattle.diagnoses.specs.BadPlaces.{bad_checks, most_places, showing, no_places, Shows};
ghost use Rattle.diagnosis.specs.Marks.{marked};

use super::least;
use card_read::read;
use card_table::table;
use diagnoses::{BadPlaces, MOST_PLACES};
use refusals::Refusal;

// A refusal, with no places. The struct for C has an array with its count.
fn refused(refusal: Refusal) -> BadPlaces
    ensures { result ≡ no_places (number refusal) }
{
    BadPlaces {
        places: [0; MOST_PLACES],
        count: 0,
        refusal: refusal.number(),
    }
}

// The marked places, ascending. The call has marked the least set, which is half of the table at most.
fn listed(marks: &[bool]) -> BadPlaces
    requires { (length marks.now ≤ 2 ^ most_words) × (count (length marks.now) (marked marks.now) ≤ most_places) }
    ensures { result ≡ showing (length marks.now) (marked marks.now) }
{
    let mut places = [0; MOST_PLACES];
    let mut count = 0;
    for (x, marked) in marks.iter().enumerate() {
        if *marked {
            places[count] = x as u8;
            count += 1;
        }
    }
    BadPlaces {
        places,
        count: count as u8,
        refusal: 0,
    }
}

// The places that the call shows, or why there are none.
fn shown(card: &[u8]) -> Result<BadPlaces, Refusal>
    ensures refusal { told result ≡ first_of (bad_checks card.now) }
    ensures places { IfOk result (λ r. Shows card.now r) }
{
    let found = read::read(card)?;
    let size = table::entries(found.words as u32);
    if table::first_return(&found.table, size) == size {
        return Err(Refusal::SingleCycle);
    }
    let marks = least::least_set(&found.table[..size]);
    Ok(listed(&marks[..size]))
}

// The fewest places of the card's table whose entries alone make every completion get 7, ascending, and the first of several such sets; or the first refusal of
// 1 to 6 that applies, or 26 where the table is a single cycle. C has the struct with the refusal's number, so it is no Result here.
pub fn bad_places(card: &[u8]) -> BadPlaces
    ensures { Shows card.now result }
{
    match shown(card) {
        Ok(places) => places,
        Err(refusal) => refused(refusal),
    }
}
