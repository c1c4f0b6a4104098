// What is refused of a strip and the page for its bits.
ghost use Rattle.std.specs.Prelude.{◌≡◌};
ghost use Rattle.refusals.specs.Refusals.{first_of, told};
ghost use Rattle.bit_strip.specs.Strip.{strip_checks};

use card_fields::width;
use refusals::Refusal;

// The most words of a strip.
pub const MOST_STRIP_WORDS: usize = 16384;

// The first of refusals 22 to 24 that applies to a strip of words of n bits and a page of `room` bytes.
#[tactic(auto, unfolding(crate::specs::Strip::strip_checks, refusals::specs::Refusals::first_of))]
pub fn strip_refusal(n: u8, strip: &[u32], room: usize) -> Result<(), Refusal>
    ensures { told result ≡ first_of (strip_checks n strip.now room) }
{
    if MOST_STRIP_WORDS < strip.len() {
        return Err(Refusal::StripTooLong);
    }
    if !width::all_fit(strip, n) {
        return Err(Refusal::StripWordTooWide);
    }
    if room < n as usize * strip.len() {
        return Err(Refusal::BitPageTooSmall);
    }
    Ok(())
}
