// The words that may be tried for a rank, and the rank among any count of ties by them. The margin calls this once the pick is not refused.
ghost use Rattle.std.specs.Prelude.{◌≡◌, ◌<◌, ◌≤◌};
ghost use Rattle.tsc.specs.Constants.{widest_width};
ghost use Rattle.tsc.specs.Word.{orbit_words};
ghost use Rattle.card_format.specs.Verdict.{Accepted};
ghost use Rattle.gates.specs.Tsc1.{OnlyTsc1};
ghost use Rattle.stepping.specs.State.{used, Holds};
ghost use Rattle.samples.specs.Samples.{most_taken};
ghost use Rattle.tries.specs.Tries.{ranked};

use outputs::row;
use sample::draw;
use tsc::{Card, State};

// The most words that are tried.
pub const MOST_TRIED: usize = draw::MOST_TAKEN as usize;

// What is drawn: the rank, and how many words were taken.
#[derive(Clone, Copy)]
pub struct Ranked {
    pub rank: u32,
    pub taken: u8,
}

// The words that may be tried from a state. The margin says whether it has found TSC-1's card.
pub fn words_of(card: Card, is_tsc1: bool, s: State) -> [u32; MOST_TRIED]
    requires { Accepted card × Holds card s × OnlyTsc1 is_tsc1 card }
    ensures { result ≡ orbit_words card (used card s) most_taken }
{
    let mut words = [0u32; MOST_TRIED];
    row::fill_words(card, is_tsc1, s, MOST_TRIED, &mut words[..]);
    words
}

// The rank among k ties by these words of n bits: 0 for one alone, for which no word is taken; else by the first below L, or by the last.
pub fn rank_among(n: u32, words: [u32; MOST_TRIED], k: u32) -> Ranked
    requires { (n ≤ widest_width) × (0 < k) }
    ensures { result ≡ ranked n words k }
{
    if k == 1 {
        return Ranked { rank: 0, taken: 0 };
    }
    let mut taken: usize = 0;
    // No for: it ends by the word that decides, which the last one does, and what is drawn is what it yields then. The proof by position was not closed.
    loop {
        let word = words[taken];
        taken += 1;
        if draw::decides(n, word, k, taken as u8) {
            break Ranked {
                rank: word % k,
                taken: taken as u8,
            };
        }
    }
}
