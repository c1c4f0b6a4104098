// Which radius is one, which shovels have a place, and the first refusal of 12 to 15 and 25 that applies.
ghost use Rattle.std.specs.Prelude.{◌≡◌};
ghost use Rattle.refusals.specs.Refusals.{first_of, told};
ghost use Rattle.places.specs.Places.{paired, is_radius, place_checks};

use refusals::Refusal;
use tie_list::check;

// The greatest radius.
const MOST_RADIUS: i32 = 3000000;

// Whether it is a radius.
pub fn is_radius(radius: i32) -> bool
    ensures { result ≡ is_radius radius }
{
    0 <= radius && radius <= MOST_RADIUS
}

// Whether each shovel has a place.
pub fn is_paired(shovels: &[u16], xs: &[i32], ys: &[i32]) -> bool
    ensures { result ≡ paired shovels.now xs.now ys.now }
{
    shovels.len() == xs.len() && shovels.len() == ys.len()
}

// The first refusal of 12 to 15 and 25 that applies. `allowed` is what callers have found: whether coordinates, and the radius where there is one, are within
// their limits.
#[tactic(auto, unfolding(refusals::specs::Refusals::first_of, crate::specs::Places::place_checks))]
pub fn places_refusal(shovels: &[u16], xs: &[i32], ys: &[i32], allowed: bool) -> Result<(), Refusal>
    ensures { told result ≡ first_of (place_checks shovels.now xs.now ys.now allowed) }
{
    if !is_paired(shovels, xs, ys) {
        return Err(Refusal::LengthMismatch);
    }
    check::numbers_refusal(shovels)?;
    if !allowed {
        return Err(Refusal::OffMap);
    }
    Ok(())
}
