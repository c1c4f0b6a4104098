// Which shovels are nearest: times that tie as the squared distances do. Callers have found that distances can be worked out.
ghost use Rattle.std.specs.Prelude.{◌<◌, ◌≤◌, length, take};
ghost use Rattle.ties.specs.Ties.{most_shovels};
ghost use Rattle.ties.specs.Least.{LeastOf, SameTies};
ghost use Rattle.places.specs.Around.{distances_around, IsMeasurable};

use places::around::Around;
use tie_list::check::MOST_SHOVELS;

// The least squared distance.
fn least_distance(around: &Around<'_>) -> u64
    requires { IsMeasurable around.now × (0 < length around.now.xs.now) }
    ensures { LeastOf (distances_around around.now) (length around.now.xs.now) result }
{
    (0..around.xs.len())
        .map(|i| around.distance_at(i))
        .min()
        .unwrap()
}

// Times at the front of an array, for as many shovels as there are: 0 for the nearest, 1 for the others. `can_measure` has found what is required.
pub fn marks_of(around: &Around<'_>) -> [u32; MOST_SHOVELS]
    requires { IsMeasurable around.now × (0 < length around.now.xs.now) × (length around.now.xs.now ≤ most_shovels) }
    ensures { SameTies (distances_around around.now) (take (length around.now.xs.now) result) }
{
    let least = least_distance(around);
    let mut marks = [0u32; MOST_SHOVELS];
    for i in 0..around.xs.len() {
        marks[i] = u32::from(around.distance_at(i) != least);
    }
    marks
}
