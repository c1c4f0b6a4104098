// What a pick by the map refuses before it works out a distance.
ghost use Rattle.std.specs.Prelude.{◌≡◌, ◌++◌};
ghost use Rattle.refusals.specs.Refusals.{first_of, told};
ghost use Rattle.draws.specs.Calls.{call_checks};
ghost use Rattle.places.specs.Places.{place_checks};
ghost use Rattle.map_pick.specs.Measured.{can_measure};

use call_check::check;
use card_read::read;
use places::map;
use refusals::Refusal;
use tie_list::check::MOST_SHOVELS;

// Whether the distances of all shovels can be worked out, once it is known whether all is on the map.
pub fn can_measure(shovels: &[u16], xs: &[i32], ys: &[i32], mapped: bool) -> bool
    ensures { result ≡ can_measure shovels.now xs.now ys.now mapped }
{
    mapped
        && map::is_paired(shovels, xs, ys)
        && !shovels.is_empty()
        && shovels.len() <= MOST_SHOVELS
}

// The first refusal of 1 to 15 and 25 that applies.
pub fn first_refusal(
    card: &[u8],
    state: &[u32],
    shovels: &[u16],
    xs: &[i32],
    ys: &[i32],
    mapped: bool,
) -> Result<(), Refusal>
    ensures { told result ≡ first_of (call_checks card.now state.now ++ place_checks shovels.now xs.now ys.now mapped) }
{
    let found = read::read(card);
    check::look(&found, state)?;
    map::places_refusal(shovels, xs, ys, mapped)
}
