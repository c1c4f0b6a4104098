#![tactic(auto)]

// The calls for C and whatever can call C (include/tiedraw.h): thin, under their plain names. A slice is a pointer and a length there.
ghost use Rattle.std.specs.Prelude.{◌≡◌, List, ℕ, ◌^◌, ◌<◌, length};
ghost use Rattle.refusals.specs.Refusals.{numbered, told};
ghost use Rattle.tsc.specs.Coverage.{IsState, step_back};
ghost use Rattle.card_format.specs.Reading.{card_of};
ghost use Rattle.card_format.specs.Verdict.{verdict, ZeroIffCovers};
ghost use Rattle.draws.specs.Calls.{refusal_for, stepped, stepped_back, drawing, OnlyBefore};
ghost use Rattle.fills.specs.Fills.{fill_refusal, filled, filled_state};
ghost use Rattle.picks.specs.Picks.{picking, picked};
ghost use Rattle.places.specs.Places.{placed};
ghost use Rattle.map_picks.specs.MapPicks.{map_picking, map_picked};
ghost use Rattle.nearby.specs.Calls.{within_radius};
ghost use Rattle.diagnoses.specs.BadPlaces.{Shows};
ghost use Rattle.c_answers.specs.Answers.{drawn, choice, IsMarginAnswer, read_card, given, written_from, page_from};
ghost use Rattle.c_answers.specs.Records.{read_record, told_to};
ghost use Rattle.c_answers.specs.Counts.{counted_for};
ghost use Rattle.bit_counts.specs.Calls.{bit_page};
ghost use Rattle.records.specs.Orders.{SameOrder};
ghost use Rattle.recorded_picks.specs.Recorded.{recorded_picking, recorded_state, recorded_page};
ghost use Rattle.version.specs.Version.{version_number};

use c_answers::{
    BitCountsAnswer, CardReading, Choice, DrawnWord, MarginAnswer, OrderAnswer, RecordAnswer,
    WrittenLength,
};
use c_counts::counted;
use c_records::recorded;
use c_structs::{answer, nearest};
use card::check;
use card_read::read;
use card_table::table;
use card_write::write;
use diagnoses::BadPlaces;
use generator::call;
use nearby::WithinAnswer;
use record::order;
use refusals::Refusal;
use tsc::{Card, TABLE_SIZE};

// An answer with the refusal by its number, as the structs for C have it.
fn numbered<T: Copy>(answer: Result<T, Refusal>) -> Result<T, u8>
    ensures { result ≡ numbered answer }
{
    match answer {
        Ok(value) => Ok(value),
        Err(refusal) => Err(refusal.number()),
    }
}

// The number of the refusal, or 0.
fn refusal_number(answer: Result<(), Refusal>) -> u8
    ensures { result ≡ told answer }
{
    match answer {
        Ok(()) => 0,
        Err(refusal) => refusal.number(),
    }
}

// The version as one number.
#[unsafe(no_mangle)]
pub extern "C" fn tiedraw_version() -> u32
    ensures { result ≡ version_number }
{
    version::number()
}

// 0 for an accepted card, or refusal 1 to 9. DEMAND 3, as of card::check.
#[unsafe(no_mangle)]
pub extern "C" fn tiedraw_check(card: &[u8]) -> u8
    ensures told { result ≡ verdict card.now }
    ensures covers { ZeroIffCovers card.now result }
{
    refusal_number(check::check(card))
}

// The eight values of a card of sound form, or refusal 1 to 6 and zeros.
#[unsafe(no_mangle)]
pub extern "C" fn tiedraw_read(card: &[u8]) -> CardReading
    ensures { result ≡ read_card card.now }
{
    answer::reading_of(numbered(read::read(card)))
}

// The fewest places of the card's table whose entries alone make every completion get 7, ascending; or refusal 1 to 6 or 26 and zeros.
#[unsafe(no_mangle)]
pub extern "C" fn tiedraw_bad_places(card: &[u8]) -> BadPlaces
    ensures { Shows card.now result }
{
    diagnosis::call::bad_places(card)
}

// 0 and the state stepped, or refusal 1 to 11. The step back undoes it.
#[unsafe(no_mangle)]
pub extern "C" fn tiedraw_step(card: &[u8], state: &mut [u32]) -> u8
    ensures answer { result ≡ refusal_for card.now state.old }
    ensures after { state.new ≡ stepped card.now state.old }
    ensures undone { result ≡ 0 → IsState (card_of card.now) state.new × (step_back (card_of card.now) state.new ≡ state.old) }
{
    refusal_number(call::step(card, state))
}

// 0 and the one state whose step it was, or refusal 1 to 11.
#[unsafe(no_mangle)]
pub extern "C" fn tiedraw_step_back(card: &[u8], state: &mut [u32]) -> u8
    ensures answer { result ≡ refusal_for card.now state.old }
    ensures after { state.new ≡ stepped_back card.now state.old }
    ensures only { result ≡ 0 → OnlyBefore (card_of card.now) state.new state.old }
{
    refusal_number(call::step_back(card, state))
}

// The word of the step, or refusal 1 to 11. A word is below 2^n.
#[unsafe(no_mangle)]
pub extern "C" fn tiedraw_draw(card: &[u8], state: &mut [u32]) -> DrawnWord
    ensures answer { result ≡ drawn (drawing card.now state.old) }
    ensures after { state.new ≡ stepped card.now state.old }
    ensures narrow { result.word < 2 ^ (card_of card.now).width }
{
    answer::word_of(numbered(call::draw(card, state)))
}

// 0 and as many words in the strip from the place on as single draws would give, with the state moved as they would move it; or refusal 1 to 11 or 17.
#[unsafe(no_mangle)]
pub extern "C" fn tiedraw_fill(
    card: &[u8],
    state: &mut [u32],
    strip: &mut [u32],
    place: usize,
    count: usize,
) -> u8
    ensures answer { result ≡ fill_refusal card.now state.old strip.old place count }
    ensures words { strip.new ≡ filled card.now state.old strip.old place count }
    ensures after { state.new ≡ filled_state card.now state.old strip.old place count }
{
    refusal_number(fill::call::fill(card, state, strip, place, count))
}

// The chosen shovel, the number of ties and how many words were taken, or refusal 1 to 15 or 18.
#[unsafe(no_mangle)]
pub extern "C" fn tiedraw_pick(
    card: &[u8],
    state: &mut [u32],
    shovels: &[u16],
    times: &[u32],
) -> Choice
    ensures answer { result ≡ choice (picking card.now state.old shovels.now times.now) }
    ensures after { state.new ≡ picked card.now state.old shovels.now times.now }
{
    answer::choice_of(pick::call::pick(card, state, shovels, times))
}

// The same, for a truck, with the record of a tie at the front of the page; or refusal 1 to 15, 18 or 16.
#[unsafe(no_mangle)]
pub extern "C" fn tiedraw_pick_recorded(
    card: &[u8],
    state: &mut [u32],
    shovels: &[u16],
    times: &[u32],
    truck: u16,
    page: &mut [u8],
) -> Choice
    ensures answer { result ≡ choice (recorded_picking card.now state.old shovels.now times.now (length page.old)) }
    ensures after { state.new ≡ recorded_state card.now state.old shovels.now times.now (length page.old) }
    ensures page { page.new ≡ recorded_page card.now state.old shovels.now times.now truck page.old }
{
    answer::choice_of(recorded_pick::call::pick_recorded(card, state, shovels, times, truck, page))
}

// Every field of a record, for the desk, or refusal 20 and zeros.
#[unsafe(no_mangle)]
pub extern "C" fn tiedraw_read_record(bytes: &[u8]) -> RecordAnswer
    ensures { result ≡ read_record bytes.now }
{
    recorded::record_of(numbered(record::read::read_record(bytes)))
}

// The shovel of a record, for the cab of a truck, or refusal 20 or 21. THE CAB LEARNS NOTHING ELSE, as of record::order.
#[unsafe(no_mangle)]
pub extern "C" fn tiedraw_order(truck: u16, bytes: &[u8]) -> OrderAnswer
    ensures answer { result ≡ told_to truck bytes.now }
    ensures alone { (other : List ℕ) → SameOrder bytes.now other → result ≡ told_to truck other }
{
    recorded::order_of(numbered(order::order_for(truck, bytes)))
}

// The least change of one time that sends the truck elsewhere, and the changed pick; or refusal 1 to 15, 18 or 19.
#[unsafe(no_mangle)]
pub extern "C" fn tiedraw_margin(
    card: &[u8],
    state: &[u32],
    shovels: &[u16],
    times: &[u32],
) -> MarginAnswer
    ensures { IsMarginAnswer card.now state.now shovels.now times.now result }
{
    nearest::margin_of(numbered(margin::call::margin(card, state, shovels, times)))
}

// The same pick by the map: the nearest by squared distance; or refusal 1 to 15, 25 or 18.
#[unsafe(no_mangle)]
pub extern "C" fn tiedraw_pick_by_map(
    card: &[u8],
    state: &mut [u32],
    x: i32,
    y: i32,
    shovels: &[u16],
    xs: &[i32],
    ys: &[i32],
) -> Choice
    ensures answer { result ≡ choice (map_picking card.now state.old (placed x y shovels.now xs.now ys.now)) }
    ensures after { state.new ≡ map_picked card.now state.old (placed x y shovels.now xs.now ys.now) }
{
    answer::choice_of(map_pick::call::pick_by_map(card, state, x, y, shovels, xs, ys))
}

// The shovels within a radius, by distance and then by number; or refusal 12 to 15 or 25 and zeros.
#[unsafe(no_mangle)]
pub extern "C" fn tiedraw_within(
    x: i32,
    y: i32,
    radius: i32,
    shovels: &[u16],
    xs: &[i32],
    ys: &[i32],
) -> WithinAnswer
    ensures { result ≡ within_radius (placed x y shovels.now xs.now ys.now) radius }
{
    within::call::within(x, y, radius, shovels, xs, ys)
}

// The bits of the strip at the front of the page, as text, and what the NIST tests count of them; or refusal 1 to 9 or 22 to 24 and zeros.
#[unsafe(no_mangle)]
pub extern "C" fn tiedraw_count_bits(card: &[u8], strip: &[u32], page: &mut [u8]) -> BitCountsAnswer
    ensures answer { result ≡ counted_for card.now strip.now (length page.old) }
    ensures page { page.new ≡ bit_page card.now strip.now page.old }
{
    counted::counts_of(numbered(bit_count::call::bit_counts(card, strip, page)))
}

// The length of the card written, or refusal 2, 6 to 9 or 16. A table longer than the array is refused by 2, and a shorter one counts as followed by zeros.
#[unsafe(no_mangle)]
pub extern "C" fn tiedraw_write(
    words: u8,
    width: u8,
    table: &[u8],
    odd_power: u8,
    even_power: u8,
    constant: u32,
    filter: u8,
    sum_term: u8,
    page: &mut [u8],
) -> WrittenLength
    ensures answer { result ≡ written_from (given words width table.now odd_power even_power constant filter sum_term) (length page.old) }
    ensures after { page.new ≡ page_from (given words width table.now odd_power even_power constant filter sum_term) page.old }
{
    if TABLE_SIZE < table.len() {
        return answer::length_of(Err(Refusal::OutOfRange.number()));
    }
    let card = Card {
        words: words,
        width: width,
        table: table::table_from(table, table.len()),
        odd_power: odd_power,
        even_power: even_power,
        constant: constant,
        filter: filter,
        sum_term: sum_term,
    };
    answer::length_of(numbered(write::write(card, page)))
}
