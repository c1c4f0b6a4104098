// Squared distances, worked out once all coordinates are known to be on the map. How far two are apart is a natural number, and so is what follows.
ghost use Rattle.std.specs.Prelude.{◌≡◌, true, ◌≤◌, nat_abs, ◌-ℤ◌};
ghost use Rattle.places.specs.Distances.{squared_distance};
ghost use Rattle.places.specs.Places.{most_apart, is_on_map};

// How far two coordinates are apart.
fn apart(a: i32, b: i32) -> u64
    requires { (is_on_map a ≡ true) × (is_on_map b ≡ true) }
    ensures { (result ≡ nat_abs (a -ℤ b)) × (result ≤ most_apart) }
{
    u64::from(a.abs_diff(b))
}

// The squared distance of two places.
#[tactic(auto, unfolding(crate::specs::Distances::squared_distance))]
pub fn squared_distance(ax: i32, ay: i32, bx: i32, by: i32) -> u64
    requires { (is_on_map ax ≡ true) × (is_on_map ay ≡ true) × (is_on_map bx ≡ true) × (is_on_map by ≡ true) }
    ensures { result ≡ squared_distance ax ay bx by }
{
    let dx = apart(ax, bx);
    let dy = apart(ay, by);
    dx * dx + dy * dy
}
