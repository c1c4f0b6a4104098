// A truck's place and the places of shovels around it, which travel together.
ghost use Rattle.std.specs.Prelude.{◌≡◌, ◌<◌, length, get_or};
ghost use Rattle.places.specs.Places.{is_on_map, all_on_map, on_map};
ghost use Rattle.places.specs.Around.{distances_around, IsMeasurable};

use super::distance;

// The greatest coordinate either way.
const MOST_COORDINATE: u32 = 1000000;

// Whether a coordinate is on the map.
fn is_on_map(c: i32) -> bool
    ensures { result ≡ is_on_map c }
{
    c.unsigned_abs() <= MOST_COORDINATE
}

// Whether all of a list are.
fn all_on_map(cs: &[i32]) -> bool
    ensures { result ≡ all_on_map cs.now }
{
    cs.iter().all(|c| is_on_map(*c))
}

// The truck is at (x, y), shovel i at (xs[i], ys[i]). That all are on the map is no ghost field: `on_map` finds it out, and a clause asks for it, `IsMeasurable`.
#[derive(Clone, Copy)]
pub struct Around<'a> {
    pub x: i32,
    pub y: i32,
    pub xs: &'a [i32],
    pub ys: &'a [i32],
}

impl Around<'_> {
    // Whether truck and shovels are on the map.
    pub fn on_map(&self) -> bool
        ensures { result ≡ on_map self.now.x self.now.y self.now.xs.now self.now.ys.now }
    {
        is_on_map(self.x) && is_on_map(self.y) && all_on_map(self.xs) && all_on_map(self.ys)
    }

    // The squared distance of shovel i from the truck.
    pub fn distance_at(&self, i: usize) -> u64
        requires { IsMeasurable self.now × (i < length self.now.xs.now) }
        ensures { result ≡ get_or (distances_around self.now) i 0 }
    {
        distance::squared_distance(self.x, self.y, self.xs[i], self.ys[i])
    }
}
