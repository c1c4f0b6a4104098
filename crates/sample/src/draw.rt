// A rank drawn from a state by value. The pick calls this once nothing is refused.
ghost use Rattle.std.specs.Prelude.{◌≡◌, ◌||◌, ◌≢◌, ◌^◌, ◌<◌, ◌≤◌, eqb, ltb};
ghost use Rattle.cycle.specs.Fair.{largest_multiple};
ghost use Rattle.tsc.specs.Constants.{widest_width};
ghost use Rattle.card_format.specs.Verdict.{Accepted};
ghost use Rattle.stepping.specs.State.{used, Holds};
ghost use Rattle.samples.specs.Samples.{most_taken};
ghost use Rattle.outputs.specs.Output.{Answers};
ghost use Rattle.tsc.specs.declared.Card.{Card};
ghost use Rattle.sample.specs.Drawn.{sample};

use super::many;
use filters::filter;
use outputs::next;
use outputs::next::Output;
use selectors::selector;
use stepping::step;
use tsc::{Card, State};

// The most words that are taken.
pub const MOST_TAKEN: u8 = 16;

// What is drawn: the state then, the rank, and how many words were taken.
#[derive(Clone, Copy)]
pub struct Sample {
    pub state: State,
    pub rank: u32,
    pub taken: u8,
}

// Whether a word is below L, the largest multiple of k not above 2^n: all k numbers from the word's own multiple of k on have n bits.
fn below_limit(n: u32, word: u32, k: u32) -> bool
    requires { (n ≤ widest_width) × (0 < k) }
    ensures { result ≡ ltb word (largest_multiple (2 ^ n) k) }
{
    let start = word - word % k;
    start as u64 + k as u64 <= many::word_count(n)
}

// Whether a word decides, so many having been taken with it: it is below L, or the last that may be taken.
pub fn decides(n: u32, word: u32, k: u32, taken: u8) -> bool
    requires { (n ≤ widest_width) × (0 < k) }
    ensures { result ≡ (eqb taken most_taken || ltb word (largest_multiple (2 ^ n) k)) }
{
    if taken == MOST_TAKEN {
        return true;
    }
    below_limit(n, word, k)
}

// The rank among several ties, for words of n bits, by whichever step answers a state with its next one: by the first word below L, or by the last that may be
// taken.
pub(crate) fn rank_by<F: Fn(State) -> Output>(next: F, n: u32, s: State, k: u32) -> Sample
    requires answers { (card : Card) × Answers card (F.pre next) (F.post next) × Holds card s × (card.width ≡ n) }
    requires several { (n ≤ widest_width) × (0 < k) × (k ≢ 1) }
    ensures { (card : Card) → Answers card (F.pre next) (F.post next) → Holds card s → card.width ≡ n → result ≡ sample card (used card s) k }
{
    let mut held = s;
    let mut taken: u8 = 0;
    // No for: it ends by the word that decides, and the sample is what it yields then.
    loop {
        let drawn = next(held);
        held = drawn.state;
        taken += 1;
        if decides(n, drawn.word, k, taken) {
            break Sample {
                state: held,
                rank: drawn.word % k,
                taken: taken,
            };
        }
    }
}

// The same for a card. One tie alone has rank 0, and the pick draws nothing for it.
pub fn draw_rank(card: Card, s: State, k: u32) -> Sample
    requires { Accepted card × Holds card s × (0 < k) × (k ≢ 1) }
    ensures { result ≡ sample card (used card s) k }
{
    let p = step::forward(&card);
    let terms = selector::terms_of(card);
    let rotations = filter::rotations_of(card);
    rank_by(
        |state: State| next::next_output(terms, rotations, &p, state),
        card.width as u32,
        s,
        k,
    )
}
