// The least change of a list, searched shovel by shovel.
ghost use Rattle.std.specs.Prelude.{◌≡◌, true, ◌+◌, ◌<◌, length};
ghost use Rattle.outcomes.specs.Elsewhere.{elsewhere, Several, Listed};
ghost use Rattle.candidates.specs.Best.{BestOf};

use super::attempt;
use changes::Change;
use outcomes::Known;
use outcomes::outcome::Varied;
use tie_others::others;

// The best change once those of shovel i are tried: its time becomes the others' least time, or a second less or more. The search has tried those before it.
fn try_shovel(
    known: &Known,
    shovels: &[u16],
    times: &[u32],
    i: usize,
    best: Option<Change>,
) -> Option<Change>
    requires several { Several known.now shovels.now times.now × (i < length times.now) }
    requires best_of { BestOf shovels.now times.now (λ ys. elsewhere known.now shovels.now ys ≡ true) i best }
    ensures { BestOf shovels.now times.now (λ ys. elsewhere known.now shovels.now ys ≡ true) (i + 1) result }
{
    let o = others::others_of(shovels, times, i, shovels[known.chosen]);
    let shovel = Varied {
        known,
        shovels,
        times,
        place: i,
        others: o,
    };
    let below = attempt::attempt_below(&shovel, best);
    let at = attempt::attempt(&shovel, o.time, below);
    attempt::attempt_above(&shovel, at)
}

// The least change of all. The margin calls this once the pick is not refused, with what it found.
pub fn least_change(known: Known, shovels: &[u16], times: &[u32]) -> Option<Change>
    requires { Listed known shovels.now times.now }
    ensures { BestOf shovels.now times.now (λ ys. elsewhere known shovels.now ys ≡ true) (length times.now) result }
{
    if times.len() < 2 {
        return None;
    }
    let mut best = None;
    for i in 0..times.len() {
        best = try_shovel(&known, shovels, times, i, best);
    }
    best
}
