// The least time, and how many shovels have it.
ghost use Rattle.std.specs.Prelude.{◌≡◌, ◌<◌, length};
ghost use Rattle.ties.specs.Ties.{ties};
ghost use Rattle.ties.specs.Least.{LeastOf};

// The least time of a list that is not empty; the pick has refused an empty one.
pub fn least_time(times: &[u32]) -> u32
    requires { 0 < length times.now }
    ensures { LeastOf times.now (length times.now) result }
{
    *times.iter().min().unwrap()
}

// k, the number of ties, by the least time, which the pick has found.
pub fn ties_of(times: &[u32], least: u32) -> usize
    requires { LeastOf times.now (length times.now) least }
    ensures { result ≡ ties times.now }
{
    times.iter().filter(|t| **t == least).count()
}
