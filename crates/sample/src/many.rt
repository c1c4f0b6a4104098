// What is refused of a count of ties: refusal 18. Callers have n from a checked card.
ghost use Rattle.std.specs.Prelude.{◌≡◌, ◌^◌, ◌≤◌};
ghost use Rattle.tsc.specs.Constants.{widest_width};
ghost use Rattle.refusals.specs.Refusals.{first_of, told};
ghost use Rattle.samples.specs.Samples.{tie_checks};

use refusals::Refusal;

// How many words of n bits there are. That 2^32 is one of the answers is why it is no u32.
pub fn word_count(n: u32) -> u64
    requires { n ≤ widest_width }
    ensures { result ≡ 2 ^ n }
{
    1u64 << n
}

// Refusal 18, if it applies, for k ties and words of n bits.
pub fn ties_refusal(n: u32, k: u32) -> Result<(), Refusal>
    requires { n ≤ widest_width }
    ensures { told result ≡ first_of (tie_checks n k) }
{
    if word_count(n) < k as u64 {
        return Err(Refusal::TooManyTies);
    }
    Ok(())
}
