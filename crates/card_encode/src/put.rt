// A card's values as bytes: which fields are written, how many bytes they take, and the bytes put on a page. The writer has refused values that are not allowed,
// and a page without room.
ghost use Rattle.std.specs.Prelude.{◌≡◌, true, cond, ◌++◌, ◌+◌, ◌^◌, ◌<◌, ◌≤◌, length, drop};
ghost use Rattle.tsc.specs.Constants.{most_words};
ghost use Rattle.card_format.specs.Fields.{field_count, most_card_bytes};
ghost use Rattle.card_format.specs.Writing.{is_written, field_bytes, map_to, written, in_range};

use super::values::number_of;
use card_fields::{field, number};
use card_table::table;
use tsc::Card;

// The map of a card's bytes, and how many they are.
#[derive(Clone, Copy)]
pub struct Outline {
    pub map: u8,
    pub length: usize,
}

// Whether field k is written: it is not its absent value.
fn is_written(card: Card, k: usize) -> bool
    requires { (k < field_count) × (card.words ≤ most_words) }
    ensures { result ≡ is_written card k }
{
    if k == field::TABLE {
        return !table::is_tsc1(&card.table, card.words as u32);
    }
    !field::is_absent(k, card.words as u32, number_of(card, k))
}

// The outline with field k.
fn with_field(card: Card, k: usize, o: Outline) -> Outline
    requires k_lt_field_count { (k < field_count) × (card.words ≤ most_words) }
    requires map_bound { (o.map < 2 ^ k) × (o.length ≤ most_card_bytes) }
    ensures map_value { result.map ≡ o.map + cond (is_written card k) (2 ^ k) 0 }
    ensures length_value { result.length ≡ o.length + length (field_bytes card k) }
{
    if !is_written(card, k) {
        return o;
    }
    Outline {
        map: o.map + (1 << k),
        length: o.length + field::extent_of(k, card.words as u32),
    }
}

// The outline of a card. The writer has asked for m.
pub fn outline_of(card: Card) -> Outline
    requires { card.words ≤ most_words }
    ensures map_value { result.map ≡ map_to card field_count }
    ensures length_value { result.length ≡ length (written card) }
{
    let mut o = Outline { map: 0, length: 1 };
    for k in 0..field::FIELDS {
        o = with_field(card, k, o);
    }
    o
}

// Field k, at the start of the part, where it is written: the number of its bytes.
fn put_field(card: Card, k: usize, part: &mut [u8]) -> usize
    requires k_lt_field_count { (k < field_count) × (in_range card ≡ true) }
    requires k_in_bounds { length (field_bytes card k) ≤ length part.old }
    ensures value { result ≡ length (field_bytes card k) }
    ensures part_after { part.new ≡ field_bytes card k ++ drop (length (field_bytes card k)) part.old }
{
    if !is_written(card, k) {
        return 0;
    }
    let size = field::extent_of(k, card.words as u32);
    if k == field::TABLE {
        part[..size].copy_from_slice(&card.table[..size]);
        return size;
    }
    number::put_number(number_of(card, k), size, part);
    size
}

// The map and the fields, at the start of a page that has room for them: the writer has asked for ranges and room, and has the map from the outline.
pub fn put_card(card: Card, map: u8, page: &mut [u8])
    requires card_value { (in_range card ≡ true) × (map ≡ map_to card field_count) }
    requires card_in_bounds { length (written card) ≤ length page.old }
    ensures { page.new ≡ written card ++ drop (length (written card)) page.old }
{
    page[0] = map;
    let mut at = 1;
    for k in 0..field::FIELDS {
        at += put_field(card, k, &mut page[at..]);
    }
}
