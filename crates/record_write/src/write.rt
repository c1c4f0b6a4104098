// A record written: map, truck, shovel, ties, words taken and the state.
ghost use Rattle.std.specs.Prelude.{◌≡◌, [], ◌++◌, ◌*◌, ◌≤◌, length, drop};
ghost use Rattle.tsc.specs.Constants.{most_words};
ghost use Rattle.card_format.specs.Fields.{bytes_of};
ghost use Rattle.records.specs.Fields.{word_field, record_bytes};
ghost use Rattle.records.specs.Writing.{encoded, recorded_on, full_record};

// The map of a record that has every field.
const FULL: u8 = 31;

// Words of four bytes, low byte first, at the start of the part.
fn put_words(words: &[u32], part: &mut [u8])
    requires { 4 * length words.now ≤ length part.old }
    ensures { part.new ≡ bytes_of (word_field (length words.now)) words.now ++ drop (4 * length words.now) part.old }
{
    for (k, word) in words.iter().enumerate() {
        part[4 * k..4 * k + 4].copy_from_slice(&word.to_le_bytes());
    }
}

// A record of these fields at the front of a page that has room for it: the recorded pick has seen that.
pub fn put_record(truck: u16, shovel: u16, ties: u8, taken: u8, state: &[u32], page: &mut [u8])
    requires { (length state.now ≤ most_words) × (record_bytes (length state.now) ≤ length page.old) }
    ensures { page.new ≡ recorded_on (encoded (full_record truck shovel ties taken state.now)) page.old }
{
    let [truck_low, truck_high] = truck.to_le_bytes();
    let [shovel_low, shovel_high] = shovel.to_le_bytes();
    let head = [
        FULL,
        truck_low,
        truck_high,
        shovel_low,
        shovel_high,
        ties,
        taken,
        state.len() as u8,
    ];
    page[..8].copy_from_slice(&head);
    put_words(state, &mut page[8..]);
}
