// What is refused of a list: refusals 12 to 15.
ghost use Rattle.std.specs.Prelude.{◌≡◌, ◌<◌, length};
ghost use Rattle.refusals.specs.Refusals.{first_of, told};
ghost use Rattle.ties.specs.Ties.{twice};
ghost use Rattle.tie_list.specs.Checks.{number_checks, list_checks};
ghost use Rattle.tie_list.specs.Repeats.{repeats_at};

use refusals::Refusal;

// The most shovels of a list.
pub const MOST_SHOVELS: usize = 64;

// Whether number i stands before i as well.
fn repeats_at(shovels: &[u16], i: usize) -> bool
    requires { i < length shovels.now }
    ensures { result ≡ repeats_at shovels.now i }
{
    shovels[..i].contains(&shovels[i])
}

// Whether a number stands twice.
fn repeated(shovels: &[u16]) -> bool
    ensures { result ≡ twice shovels.now }
{
    (0..shovels.len()).any(|i| repeats_at(shovels, i))
}

// The first of refusals 13 to 15 that applies to the numbers.
#[tactic(auto, unfolding(refusals::specs::Refusals::first_of))]
pub fn numbers_refusal(shovels: &[u16]) -> Result<(), Refusal>
    ensures { told result ≡ first_of (number_checks shovels.now) }
{
    if shovels.is_empty() {
        return Err(Refusal::NoShovel);
    }
    if MOST_SHOVELS < shovels.len() {
        return Err(Refusal::TooManyShovels);
    }
    if repeated(shovels) {
        return Err(Refusal::DuplicateShovel);
    }
    Ok(())
}

// The first of refusals 12 to 15 that applies.
#[tactic(auto, unfolding(refusals::specs::Refusals::first_of, crate::specs::Checks::list_checks))]
pub fn list_refusal(shovels: &[u16], times: &[u32]) -> Result<(), Refusal>
    ensures { told result ≡ first_of (list_checks shovels.now times.now) }
{
    if shovels.len() != times.len() {
        return Err(Refusal::LengthMismatch);
    }
    numbers_refusal(shovels)
}
