// The pick by the map on lent slices: any bytes as a card, any words as a state, any numbers and places. A refusal leaves the state as lent.
ghost use Rattle.std.specs.Prelude.{◌≡◌};
ghost use Rattle.places.specs.Places.{placed};
ghost use Rattle.map_picks.specs.MapPicks.{map_picking, map_picked};

use super::{nearest, refusal};
use picks::Pick;
use places::around::Around;

// The shovel of least squared distance from (x, y); of several, the one whose rank by ascending number is drawn. Or the first refusal of 1 to 15, 25 and 18 that
// applies. Where none of 12, 13, 14 and 25 does, it is the timed pick of times that tie as the distances do; no distance is worked out before that is known.
pub fn pick_by_map(
    card: &[u8],
    state: &mut [u32],
    x: i32,
    y: i32,
    shovels: &[u16],
    xs: &[i32],
    ys: &[i32],
) -> Pick
    ensures answer { result ≡ map_picking card.now state.old (placed x y shovels.now xs.now ys.now) }
    ensures after { state.new ≡ map_picked card.now state.old (placed x y shovels.now xs.now ys.now) }
{
    let around = Around { x, y, xs, ys };
    let mapped = around.on_map();
    if !refusal::can_measure(shovels, xs, ys, mapped) {
        let told = refusal::first_refusal(card, state, shovels, xs, ys, mapped);
        return Pick::from(told.unwrap_err());
    }
    let marks = nearest::marks_of(&around);
    pick::call::pick(card, state, shovels, &marks[..xs.len()])
}
