// One change tried: it becomes the best one if it is a change, comes before the best so far and sends the truck elsewhere.
ghost use Rattle.std.specs.Prelude.{◌≡◌, cond, ◌||◌, ◌+◌, ◌-◌, eqb, ltb, length, get_or};
ghost use Rattle.changes.specs.Change.{most_time};
ghost use Rattle.change_order.specs.First.{Placed};
ghost use Rattle.candidates.specs.Best.{attempted_to};

use change_order::order;
use changes::{Change, MOST_TIME};
use outcomes::outcome::Varied;

// The shovel's time becomes v. The search has kept no change but of the list.
pub fn attempt(shovel: &Varied, v: u32, best: Option<Change>) -> Option<Change>
    requires { Placed (length shovel.now.shovels.now) best }
    ensures { result ≡ attempted_to shovel.now v best }
{
    let i = shovel.place;
    let c = order::change_to(i, shovel.times[i], v);
    if c.seconds == 0 {
        return best;
    }
    if !order::comes_first(shovel.shovels, c, best) {
        return best;
    }
    if !shovel.goes_elsewhere(v) {
        return best;
    }
    Some(c)
}

// It becomes a second less than the others' least time, unless that is 0 or its own is less. Asked for as above.
pub fn attempt_below(shovel: &Varied, best: Option<Change>) -> Option<Change>
    requires { Placed (length shovel.now.shovels.now) best }
    ensures { result ≡ cond (eqb shovel.now.others.time 0 || ltb (get_or shovel.now.times.now shovel.now.place 0) shovel.now.others.time) best
        (attempted_to shovel.now (shovel.now.others.time - 1) best) }
{
    let o = shovel.others;
    if o.time == 0 {
        return best;
    }
    if shovel.times[shovel.place] < o.time {
        return best;
    }
    attempt(shovel, o.time - 1, best)
}

// It becomes a second more than that, unless there is no greater time or its own is more. Asked for as above.
pub fn attempt_above(shovel: &Varied, best: Option<Change>) -> Option<Change>
    requires { Placed (length shovel.now.shovels.now) best }
    ensures { result ≡ cond (eqb shovel.now.others.time most_time || ltb shovel.now.others.time (get_or shovel.now.times.now shovel.now.place 0)) best
        (attempted_to shovel.now (shovel.now.others.time + 1) best) }
{
    let o = shovel.others;
    if o.time == MOST_TIME {
        return best;
    }
    if o.time < shovel.times[shovel.place] {
        return best;
    }
    attempt(shovel, o.time + 1, best)
}
