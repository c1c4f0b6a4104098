// The shovels within a radius on lent slices: any place, any radius, any numbers and places.
ghost use Rattle.std.specs.Prelude.{◌≡◌, ◌&&◌, true};
ghost use Rattle.refusals.specs.Refusals.{number};
ghost use Rattle.places.specs.Distances.{square};
ghost use Rattle.places.specs.Places.{placed, on_map, is_radius};
ghost use Rattle.nearby.specs.Calls.{no_list, within_radius};

use super::{keys, list};
use nearby::WithinAnswer;
use places::around::Around;
use places::map;
use refusals::Refusal;
use tie_list::check::MOST_SHOVELS;

// Whether places and radius are allowed.
fn is_allowed(around: &Around<'_>, radius: i32) -> bool
    ensures { result ≡ (on_map around.now.x around.now.y around.now.xs.now around.now.ys.now && is_radius radius) }
{
    around.on_map() && map::is_radius(radius)
}

// A refusal, with no list. The struct for C has the number beside the list.
fn refused(refusal: Refusal) -> WithinAnswer
    ensures { result ≡ no_list (number refusal) }
{
    WithinAnswer {
        shovels: [0; MOST_SHOVELS],
        count: 0,
        refusal: refusal.number(),
    }
}

// The radius squared.
fn squared(radius: i32) -> u64
    requires { is_radius radius ≡ true }
    ensures { result ≡ square radius }
{
    let r = radius as u64;
    r * r
}

// The shovels within the radius around (x, y), by distance and then by number; or the first refusal of 12 to 15 and 25 that applies. No distance is worked out
// before that is known.
pub fn within(x: i32, y: i32, radius: i32, shovels: &[u16], xs: &[i32], ys: &[i32]) -> WithinAnswer
    ensures { result ≡ within_radius (placed x y shovels.now xs.now ys.now) radius }
{
    let around = Around { x, y, xs, ys };
    let allowed = is_allowed(&around, radius);
    if let Err(refusal) = map::places_refusal(shovels, xs, ys, allowed) {
        return refused(refusal);
    }
    let found = keys::keys_of(&around, squared(radius), shovels);
    let n = xs.len();
    let mut numbers = [0u16; MOST_SHOVELS];
    let count = list::list_by(&found[..n], shovels, &mut numbers);
    WithinAnswer {
        shovels: numbers,
        count: count as u8,
        refusal: 0,
    }
}
