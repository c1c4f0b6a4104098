// Changes by their new time, and which of two comes first.
ghost use Rattle.std.specs.Prelude.{◌≡◌, ◌+◌, ◌-◌, ◌<◌, ltb, length};
ghost use Rattle.changes.specs.Others.{before};
ghost use Rattle.change_order.specs.First.{Placed, comes_first};

use changes::Change;

// The change of time t, at place i, to v.
pub fn change_to(i: usize, t: u32, v: u32) -> Change
    ensures { result ≡ record { place = i; raised = ltb t v; seconds = (v - t) + (t - v) } }
{
    Change {
        place: i,
        raised: t < v,
        seconds: t.abs_diff(v),
    }
}

// Whether c comes before e: fewer seconds, the lower number, lowered before raised. Both are changes of the list, as the search has seen.
#[tactic(auto, unfolding(changes::specs::Others::before))]
fn earlier(shovels: &[u16], c: Change, e: Change) -> bool
    requires { (c.place < length shovels.now) × (e.place < length shovels.now) }
    ensures { result ≡ before shovels.now c e }
{
    let x = shovels[c.place];
    let y = shovels[e.place];
    (c.seconds, x, c.raised) < (e.seconds, y, e.raised)
}

// Whether c comes before the best change so far, if there is one. Both are changes of the list, as above.
#[tactic(auto, unfolding(crate::specs::First::Placed, crate::specs::First::comes_first))]
pub fn comes_first(shovels: &[u16], c: Change, best: Option<Change>) -> bool
    requires { (c.place < length shovels.now) × Placed (length shovels.now) best }
    ensures { result ≡ comes_first shovels.now c best }
{
    best.is_none_or(|e| earlier(shovels, c, e))
}
