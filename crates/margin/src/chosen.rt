// The pick without a change, and by the same words the pick of changed times.
ghost use Rattle.std.specs.Prelude.{◌≡◌, ◌<◌, ◌≤◌, length};
ghost use Rattle.cycle.specs.Notation.{first};
ghost use Rattle.tsc.specs.Constants.{widest_width};
ghost use Rattle.tsc.specs.Word.{orbit_words};
ghost use Rattle.card_format.specs.Verdict.{Accepted};
ghost use Rattle.gates.specs.Tsc1.{OnlyTsc1};
ghost use Rattle.stepping.specs.State.{used, Holds};
ghost use Rattle.ties.specs.Ties.{most_shovels, ties, has_rank, chosen};
ghost use Rattle.tie_rank.specs.Listed.{Listed};
ghost use Rattle.samples.specs.Samples.{most_taken};
ghost use Rattle.tries.specs.Tries.{ranked};

use outcomes::Known;
use tie_rank::rank;
use tie_time::time;
use tries::row;
use tsc::{Card, State};

// The shovel, how many ties there are, and how many words are taken.
#[derive(Clone, Copy)]
pub struct Chosen {
    pub shovel: u16,
    pub ties: usize,
    pub taken: u8,
}

// What all picks from a state have in common: the words, drawn once, and the place of the shovel chosen among k ties without a change. The margin has seen that
// nothing is refused, and whether the card is TSC-1's.
pub fn known_of(
    card: Card,
    is_tsc1: bool,
    s: State,
    shovels: &[u16],
    times: &[u32],
    least: u32,
    k: usize,
) -> Known
    requires { Accepted card × OnlyTsc1 is_tsc1 card × Holds card s × (0 < k) × (k ≤ most_shovels) × Listed shovels.now times.now least }
    ensures width { result.width ≡ card.width }
    ensures words { result.words ≡ orbit_words card (used card s) most_taken }
    ensures chosen { result.chosen ≡ first (length times.now) (has_rank shovels.now times.now (ranked result.width result.words k).rank) }
{
    let words = row::words_of(card, is_tsc1, s);
    let n = card.width as u32;
    let drawn = row::rank_among(n, words, k as u32);
    Known {
        width: n,
        words: words,
        chosen: rank::place_by(shovels, times, least, drawn.rank as usize),
    }
}

// A pick of these times by those words. The search has seen that it is not refused.
pub fn pick_by(known: Known, shovels: &[u16], times: &[u32]) -> Chosen
    requires { (known.width ≤ widest_width) × (length shovels.now ≡ length times.now) × (0 < length times.now) × (length times.now ≤ most_shovels) }
    ensures shovel { result.shovel ≡ chosen shovels.now times.now (ranked known.width known.words (ties times.now)).rank }
    ensures ties { result.ties ≡ ties times.now }
    ensures taken { result.taken ≡ (ranked known.width known.words (ties times.now)).taken }
{
    let least = time::least_time(times);
    let k = time::ties_of(times, least);
    let words = known.words;
    let drawn = row::rank_among(known.width, words, k as u32);
    Chosen {
        shovel: rank::chosen_by(shovels, times, least, drawn.rank as usize),
        ties: k,
        taken: drawn.taken,
    }
}
