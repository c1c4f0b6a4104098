// The output word of a state (document 002, 15 and 20; document 02, Five). Callers hold an accepted card and a state of its size.
ghost use Rattle.std.specs.Prelude.{◌≡◌, [], ◌∷◌, ℕ, ◌-◌, ◌^◌, ◌<◌, ◌≤◌, get_or};
ghost use Rattle.tsc.specs.declared.Card.{Card};
ghost use Rattle.tsc.specs.Constants.{most_words, filter_words, widest_width};
ghost use Rattle.tsc.specs.Word.{◌⊞◌, filter1, filter2, further, filtered, word};
ghost use Rattle.filters.specs.Rotations.{rotations1, rotations2, places_by, further_by, rotations_of, HasRotations, HasFurther, Filters};

use tsc::{Card, MOST_WORDS, State};
use words::arithmetic::{Width, add, rotate_left, width_of};

// The words that the filters of document 002 take, and those that a state can have past them.
const FILTER_WORDS: usize = 4;

const FURTHER_WORDS: usize = MOST_WORDS - FILTER_WORDS;

// What the filter of a card needs, worked out once for all the words of a call: the width, and by how many places each rotation goes, modulo n. Those of the
// further words are 0 where there are none.
#[derive(Clone, Copy)]
pub struct Rotations {
    // m
    pub words: u32,
    pub width: Width,
    // 1 or 2
    pub filter: u8,
    pub places: [u32; 5],
    pub further: [u32; FURTHER_WORDS],
}

// Rotations by a to e places, modulo n.
fn places_by(n: u32, a: u32, b: u32, c: u32, d: u32, e: u32) -> [u32; 5]
    requires { 0 < n }
    ensures { result ≡ places_by n (a ∷ b ∷ c ∷ d ∷ e ∷ []) }
{
    [a % n, b % n, c % n, d % n, e % n]
}

// Rotations of the further words by their numbers, modulo n, where m says that there are any.
fn further_by(n: u32, m: u32) -> [u32; FURTHER_WORDS]
    requires { 0 < n }
    ensures { result ≡ further_by n m }
{
    let mut places = [0; FURTHER_WORDS];
    if m as usize <= FILTER_WORDS {
        return places;
    }
    for j in 0..FURTHER_WORDS {
        places[j] = (FILTER_WORDS + j) as u32 % n;
    }
    places
}

// The rotations of a card's filter, in the order of (15) and (20), and of its further words.
pub fn rotations_of(card: Card) -> Rotations
    requires { (0 < card.width) × (card.width ≤ widest_width) }
    ensures { result ≡ rotations_of card }
{
    let m = card.words as u32;
    let n = card.width as u32;
    let w = width_of(n);
    let f = further_by(n, m);
    if card.filter != 2 {
        let p = places_by(n, 9, 15, 7, 0, 0);
        return Rotations {
            words: m,
            width: w,
            filter: card.filter,
            places: p,
            further: f,
        };
    }
    let p = places_by(n, 11, 14, 13, 22, 12);
    Rotations {
        words: m,
        width: w,
        filter: card.filter,
        places: p,
        further: f,
    }
}

// Filter 1, document 002 (15). This and filter 2 are two formulas, of three and five rotations: one function of both would be no plainer.
fn filter_1(t: Rotations, s: State) -> u32
    requires has_rotations { HasRotations t rotations1 }
    requires by_index { (k : ℕ) → k < most_words → get_or s.words k 0 < 2 ^ t.width.bits }
    ensures { result ≡ filter1 t.width.bits (λ k. get_or s.words k 0) }
{
    let w = t.width;
    let inner = add(w, rotate_left(w, s.words[0], t.places[0]), s.words[1]);
    let rest = add(w, rotate_left(w, s.words[2], t.places[2]), s.words[3]);
    add(w, rotate_left(w, inner, t.places[1]), rest)
}

// Filter 2, document 002 (20).
fn filter_2(t: Rotations, s: State) -> u32
    requires has_rotations { HasRotations t rotations2 }
    requires by_index { (k : ℕ) → k < most_words → get_or s.words k 0 < 2 ^ t.width.bits }
    ensures { result ≡ filter2 t.width.bits (λ k. get_or s.words k 0) }
{
    let w = t.width;
    let x = s.words[0];
    let first = add(w, rotate_left(w, x, t.places[0]), s.words[1]);
    let second = add(w, rotate_left(w, x, t.places[2]), s.words[2]);
    let rest = add(w, rotate_left(w, x, t.places[4]), s.words[3]);
    add(
        w,
        add(
            w,
            rotate_left(w, first, t.places[1]),
            rotate_left(w, second, t.places[3]),
        ),
        rest,
    )
}

// What the filter makes of x0 to x3, for a card whose rotations these are: callers have them from `rotations_of`. This is the word of a state of no more words.
pub fn filtered_by(t: Rotations, s: State) -> u32
    requires { (card : Card) × Filters card t s }
    ensures { (card : Card) → Filters card t s → result ≡ filtered card (λ k. get_or s.words k 0) }
{
    if t.filter == 2 {
        return filter_2(t, s);
    }
    filter_1(t, s)
}

// A word with the further words added, each rotated by its number.
fn with_further(t: Rotations, s: State, word: u32) -> u32
    requires has_further { HasFurther t × (word < 2 ^ t.width.bits) }
    requires by_index { (k : ℕ) → k < most_words → get_or s.words k 0 < 2 ^ t.width.bits }
    ensures { result ≡ ◌⊞◌ t.width.bits word (further t.width.bits (λ k. get_or s.words k 0) (most_words - filter_words)) }
{
    let w = t.width;
    let mut sum = word;
    for j in 0..FURTHER_WORDS {
        let turned = rotate_left(w, s.words[FILTER_WORDS + j], t.further[j]);
        sum = add(w, sum, turned);
    }
    sum
}

// The word of a state, for the card whose rotations these are. For the word of a draw, the caller hands over the state after the step.
pub fn word_by(t: Rotations, s: State) -> u32
    requires { (card : Card) × Filters card t s }
    ensures { (card : Card) → Filters card t s → result ≡ word card s.words }
{
    let word = filtered_by(t, s);
    if t.words as usize <= FILTER_WORDS {
        return word;
    }
    with_further(t, s, word)
}
