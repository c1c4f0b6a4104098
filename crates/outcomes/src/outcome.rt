// Whether a pick goes elsewhere once a time is changed, by what the other shovels come to.
ghost use Rattle.std.specs.Prelude.{◌≡◌, cond, not, ◌&&◌, ◌^◌, ◌<◌, ◌≤◌, eqb, leb, length, get_or, set};
ghost use Rattle.tsc.specs.Constants.{widest_width};
ghost use Rattle.ties.specs.Ties.{most_shovels};
ghost use Rattle.tries.specs.Tries.{ranked};
ghost use Rattle.tie_others.specs.Others.{IsOthers};
ghost use Rattle.outcomes.specs.Elsewhere.{IsOutcome, elsewhere, Several};

use super::Known;
use sample::many;
use std::cmp::Ordering;
use tie_others::others::Others;
use tries::row;

// The ties of a list: how many, whether the chosen shovel is one of them, and how many have a lower number than it.
#[derive(Clone, Copy)]
pub struct Outcome {
    pub ties: usize,
    pub tie: bool,
    pub rank: usize,
}

// The shovel of a list whose time varies, at a place, with what the others come to, compared with the chosen shovel's number.
#[derive(Drop)]
pub struct Varied<'a> {
    pub known: &'a Known,
    pub shovels: &'a [u16],
    pub times: &'a [u32],
    pub place: usize,
    pub others: Others,
    pub ghost several: { Several known.now shovels.now times.now },
    pub ghost listed: { place < length times.now },
    pub ghost compared: { IsOthers shovels.now times.now place (get_or shovels.now known.now.chosen 0) (length times.now) others },
}

// Whether the chosen shovel is a tie where the ties have time x: by its time t, unless it is the changed one.
fn tie_at(own: bool, tie: bool, t: u32, x: u32) -> bool
    ensures { result ≡ cond own tie (eqb t x) }
{
    (own && tie) || (!own && t == x)
}

// Whether a pick with such ties is not refused and goes elsewhere: the chosen shovel is no tie, or has another rank than the one drawn. A list has a tie at least,
// and no more than shovels.
fn leaves(known: &Known, o: Outcome) -> bool
    requires { (known.now.width ≤ widest_width) × (0 < o.ties) × (o.ties ≤ most_shovels) }
    ensures { result ≡ (leb o.ties (2 ^ known.now.width) && not (o.tie && eqb o.rank (ranked known.now.width known.now.words o.ties).rank)) }
{
    let k = o.ties as u32;
    if many::ties_refusal(known.width, k).is_err() {
        return false;
    }
    if !o.tie {
        return true;
    }
    let drawn = row::rank_among(known.width, known.words, k);
    o.rank != drawn.rank as usize
}

impl Varied<'_> {
    // The ties where the shovel's time is v.
    fn outcome_of(&self, v: u32) -> Outcome
        ensures { IsOutcome self.now.shovels.now (set self.now.times.now self.now.place v) self.now.known.now.chosen result }
    {
        let i = self.place;
        let p = self.known.chosen;
        let o = self.others;
        let lower = usize::from(self.shovels[i] < self.shovels[p]);
        match v.cmp(&o.time) {
            Ordering::Less => Outcome {
                ties: 1,
                tie: p == i,
                rank: lower,
            },
            Ordering::Equal => Outcome {
                ties: o.ties + 1,
                tie: tie_at(p == i, true, self.times[p], o.time),
                rank: o.lower + lower,
            },
            Ordering::Greater => Outcome {
                ties: o.ties,
                tie: tie_at(p == i, false, self.times[p], o.time),
                rank: o.lower,
            },
        }
    }

    // Whether a pick is not refused and goes elsewhere where the shovel's time is v.
    pub fn goes_elsewhere(&self, v: u32) -> bool
        ensures { result ≡ elsewhere self.now.known.now self.now.shovels.now (set self.now.times.now self.now.place v) }
    {
        leaves(self.known, self.outcome_of(v))
    }
}
