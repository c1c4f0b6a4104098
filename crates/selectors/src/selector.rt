// The selector of a state (document 002, 13 and 18), without a branch. The loops go from the last word to the first, as the definitions do, over `count`
// words, at least m, which callers name by a constant, so that the compiler writes the loops out: masks leave out the words past m. It is no const parameter,
// which would ask of callers that it is one. Callers hold an accepted card.
ghost use Rattle.std.specs.Prelude.{◌≡◌, ℕ, ◌%◌, ◌^◌, ◌<◌, ◌≤◌, take};
ghost use Rattle.tsc.specs.declared.Card.{Card};
ghost use Rattle.tsc.specs.Constants.{most_words, widest_width};
ghost use Rattle.tsc.specs.Selector.{and_words, sum_words, selector};
ghost use Rattle.words.specs.Widths.{IsWidth};
ghost use Rattle.selectors.specs.Terms.{Absent, IsTerms};

use std::num::wrapping_add_u32;
use tsc::{Card, MOST_WORDS, State};
use words::arithmetic::Width;
use words::{arithmetic, mask};

// What the selector needs of a card, worked out once for all the steps of a call.
#[derive(Clone, Copy)]
pub struct Terms {
    // m
    pub words: u32,
    pub width: Width,
    // ones for each word past m
    pub absent: [u32; MOST_WORDS],
    // C
    pub constant: u32,
    // 2^n - 1 where the selector has the term 2s, else 0
    pub doubled: u32,
}

// Ones for each word past m, zeros for the others.
fn absent_words(m: u32) -> [u32; MOST_WORDS]
    requires { m ≤ most_words }
    ensures { Absent m result }
{
    let present = (1u32 << m) - 1;
    let mut absent = [0; MOST_WORDS];
    for k in 0..MOST_WORDS {
        absent[k] = !mask::spread(present, k as u32);
    }
    absent
}

// The terms of a card.
pub fn terms_of(card: Card) -> Terms
    requires { (0 < card.width) × (card.width ≤ widest_width) × (card.words ≤ most_words) }
    ensures { IsTerms card result }
{
    let m = card.words as u32;
    let width = arithmetic::width_of(card.width as u32);
    let absent = absent_words(m);
    let mut doubled = 0;
    if card.sum_term == 1 {
        doubled = width.low;
    }
    Terms {
        words: m,
        width: width,
        absent: absent,
        constant: card.constant,
        doubled: doubled,
    }
}

// p: the AND of the first m words, of n bits, for the m that the masks are of.
fn and_words(t: Terms, s: State, count: usize) -> u32
    requires { IsWidth t.width × (count ≤ most_words) }
    ensures { (m : ℕ) → m ≤ count → Absent m t.absent → result ≡ and_words t.width.bits (take m s.words) }
{
    let mut p = t.width.low;
    for k in (0..count).rev() {
        p = (s.words[k] | t.absent[k]) & p;
    }
    p
}

// s: the sum of the first m words, before it is reduced to n bits, for the m that the masks are of.
fn sum_words(t: Terms, s: State, count: usize) -> u32
    requires { count ≤ most_words }
    ensures { (m : ℕ) → m ≤ count → Absent m t.absent → result ≡ sum_words (take m s.words) % 2 ^ widest_width }
{
    let mut sum = 0;
    for k in (0..count).rev() {
        sum = wrapping_add_u32(s.words[k] & !t.absent[k], sum);
    }
    sum
}

// The selector of the state's first m words, for the card whose terms these are: callers have them from `terms_of`. The card itself is not handed over, here
// and in the functions of a step, since its 256 entries would be copied each time.
pub fn selector_by(t: Terms, s: State, count: usize) -> u32
    requires { IsWidth t.width × (count ≤ most_words) }
    ensures { (card : Card) → IsTerms card t → card.words ≤ count → result ≡ selector card (take card.words s.words) }
{
    let p = and_words(t, s, count);
    let sum = sum_words(t, s, count);
    let moved = arithmetic::add(t.width, p, t.constant) ^ p;
    moved ^ (wrapping_add_u32(sum, sum) & t.doubled)
}
