// What is kept of the bits so far, with one bit more, and the four integers that it comes to. Nothing here branches on a bit.
ghost use Rattle.std.specs.Prelude.{◌≡◌, ◌*◌, ◌<◌, ◌≤◌};
ghost use Rattle.std.proofs.Math.IntN.{sub_ℕ};
ghost use Rattle.bit_tally.specs.Tally.{base, tally_of_none, with_bit, HasRoom, Extremes, counts_from};

use bit_counts::Counts;
use bit_strip::check::MOST_STRIP_WORDS;

// The running sum is kept that much higher, so that it is a number: it never falls by more than there are bits.
const BASE: u32 = 32 * MOST_STRIP_WORDS as u32;

// The running sum, the lowest and the highest it has been, the runs, and the last bit, which is 2 before the first: an Option would be matched at each bit.
#[derive(Clone, Copy)]
pub struct Tally {
    pub sum: u32,
    pub low: u32,
    pub high: u32,
    pub runs: u32,
    pub last: u32,
}

impl Tally {
    // Of no bits.
    pub fn none() -> Tally
        ensures { result ≡ tally_of_none }
    {
        Tally {
            sum: BASE,
            low: BASE,
            high: BASE,
            runs: 0,
            last: 2,
        }
    }

    // One bit more. Callers have found that there are no more bits than the sum has room for.
    #[tactic(auto, unfolding(crate::specs::Tally::with_bit))]
    pub fn with_bit(self, bit: u32) -> Tally
        requires { (bit < 2) × HasRoom self 1 }
        ensures { result ≡ with_bit self bit }
    {
        let sum = self.sum - 1 + 2 * bit;
        Tally {
            sum,
            low: self.low.min(sum),
            high: self.high.max(sum),
            runs: self.runs + u32::from(self.last != bit),
            last: bit,
        }
    }

    // The four integers that it comes to. The pass keeps extremes (`pass_extremes`).
    #[tactic(auto, unfolding(crate::specs::Tally::counts_from))]
    pub fn counts(self) -> Counts
        requires { Extremes self }
        ensures { result ≡ counts_from self }
    {
        Counts {
            balance: signed(self.sum),
            forward: (self.high - BASE).max(BASE - self.low),
            backward: (self.sum - self.low).max(self.high - self.sum),
            runs: self.runs,
        }
    }
}

// The sum with its sign.
fn signed(sum: u32) -> i32
    requires { sum ≤ 2 * base }
    ensures { result ≡ sub_ℕ sum base }
{
    sum as i32 - BASE as i32
}
