// A change made: the times after it, and how it is told with their pick. The search has found that it counts.
ghost use Rattle.std.specs.Prelude.{◌≡◌, ◌<◌, ◌≤◌, length, get_or, take};
ghost use Rattle.tsc.specs.Constants.{widest_width};
ghost use Rattle.ties.specs.Ties.{most_shovels, ties, chosen};
ghost use Rattle.tries.specs.Tries.{ranked};
ghost use Rattle.changes.specs.Change.{moved, Within, changed};

use super::chosen;
use changes::Change;
use margins::Nearest;
use outcomes::Known;
use tie_list::check::MOST_SHOVELS;

// A time raised, or else lowered, by some seconds.
fn moved_by(t: u32, raised: bool, seconds: u32) -> u32
    requires { Within raised t seconds }
    ensures { result ≡ moved raised t seconds }
{
    if raised {
        return t + seconds;
    }
    t - seconds
}

// The times after a change, at the front of an array.
fn changed_times(times: &[u32], c: Change) -> [u32; MOST_SHOVELS]
    requires { (c.place < length times.now) × (length times.now ≤ most_shovels) × Within c.raised (get_or times.now c.place 0) c.seconds }
    ensures { take (length times.now) result ≡ changed times.now c }
{
    let mut list = [0u32; MOST_SHOVELS];
    list[..times.len()].copy_from_slice(times);
    let i = c.place;
    list[i] = moved_by(times[i], c.raised, c.seconds);
    list
}

// A change as it is told, with the changed pick.
pub fn told(known: Known, shovels: &[u16], times: &[u32], c: Change) -> Nearest
    requires width_le_widest_width { (known.width ≤ widest_width) × (length shovels.now ≡ length times.now) × (length times.now ≤ most_shovels) }
    requires place_in_bounds { (c.place < length times.now) × Within c.raised (get_or times.now c.place 0) c.seconds }
    ensures change { (result.seconds ≡ c.seconds) × (result.changed ≡ get_or shovels.now c.place 0) × (result.raised ≡ c.raised) }
    ensures shovel { result.shovel ≡ chosen shovels.now (changed times.now c) (ranked known.width known.words (ties (changed times.now c))).rank }
    ensures ties { result.ties ≡ ties (changed times.now c) }
    ensures taken { result.taken ≡ (ranked known.width known.words (ties (changed times.now c))).taken }
{
    let list = changed_times(times, c);
    let p = chosen::pick_by(known, shovels, &list[..times.len()]);
    Nearest {
        seconds: c.seconds,
        changed: shovels[c.place],
        raised: c.raised,
        shovel: p.shovel,
        ties: p.ties as u8,
        taken: p.taken,
    }
}
