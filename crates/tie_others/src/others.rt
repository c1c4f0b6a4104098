// The shovels but one: their least time, how many have it, and how many of these have a lower number than a given one.
ghost use Rattle.std.specs.Prelude.{◌≡◌, ◌≤◌, length};
ghost use Rattle.ties.specs.Ties.{most_shovels};
ghost use Rattle.tie_others.specs.Others.{joined_by, IsOthers};

use changes::MOST_TIME;

// With no shovel at all, the greatest time, and none.
#[derive(Clone, Copy)]
pub struct Others {
    pub time: u32,
    pub ties: usize,
    pub lower: usize,
}

// One shovel more, if it is another than the one left out, of time t, and whether its number is lower. The loop below has not counted more than a list may have.
#[tactic(auto, unfolding(crate::specs::Others::joined_by))]
fn joined(o: Others, other: bool, t: u32, lower: bool) -> Others
    requires { (o.ties ≤ most_shovels) × (o.lower ≤ most_shovels) }
    ensures { result ≡ joined_by o other t lower }
{
    if !other {
        return o;
    }
    // Two tests, and no match on what `cmp` answers, which takes a quarter more of a margin of 64 ties.
    if t < o.time {
        Others {
            time: t,
            ties: 1,
            lower: usize::from(lower),
        }
    } else if t == o.time {
        Others {
            time: t,
            ties: o.ties + 1,
            lower: o.lower + usize::from(lower),
        }
    } else {
        o
    }
}

// All shovels but the one at place i, and the numbers lower than y. The pick has refused lists that are uneven or too long.
pub fn others_of(shovels: &[u16], times: &[u32], i: usize, y: u16) -> Others
    requires { (length shovels.now ≡ length times.now) × (length times.now ≤ most_shovels) }
    ensures { IsOthers shovels.now times.now i y (length times.now) result }
{
    let mut o = Others {
        time: MOST_TIME,
        ties: 0,
        lower: 0,
    };
    for j in 0..times.len() {
        o = joined(o, j != i, times[j], shovels[j] < y);
    }
    o
}
