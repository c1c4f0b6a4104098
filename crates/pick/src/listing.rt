// What a pick finds of its list.
ghost use Rattle.std.specs.Prelude.{◌≡◌, ◌++◌, ◌≤◌, length, IfOk};
ghost use Rattle.tsc.specs.Constants.{widest_width};
ghost use Rattle.refusals.specs.Refusals.{first_of, told};
ghost use Rattle.ties.specs.Ties.{ties};
ghost use Rattle.ties.specs.Least.{LeastOf};
ghost use Rattle.tie_list.specs.Checks.{list_checks};
ghost use Rattle.samples.specs.Samples.{tie_checks};

use refusals::Refusal;
use sample::many;
use tie_list::check;
use tie_time::time;

// The least time and how many shovels have it.
#[derive(Clone, Copy)]
pub struct Listing {
    pub least: u32,
    pub ties: usize,
}

// The list's checks, then the count of ties, for words of n bits: the first refusal of 12 to 15 and 18 that applies. Callers have n from a checked card.
pub fn list_ties(n: u32, shovels: &[u16], times: &[u32]) -> Result<Listing, Refusal>
    requires { n ≤ widest_width }
    ensures refusal { told result ≡ first_of (list_checks shovels.now times.now ++ tie_checks n (ties times.now)) }
    ensures found { IfOk result (λ l. LeastOf times.now (length times.now) l.least × (l.ties ≡ ties times.now)) }
{
    check::list_refusal(shovels, times)?;
    let least = time::least_time(times);
    let k = time::ties_of(times, least);
    many::ties_refusal(n, k as u32)?;
    Ok(Listing { least, ties: k })
}
