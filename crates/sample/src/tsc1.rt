// A rank drawn by TSC-1 from a state by value, by its gate formulas (document 02, Nine). The pick calls this once nothing is refused and there are several ties.
ghost use Rattle.std.specs.Prelude.{◌≡◌, ◌≢◌, ◌<◌};
ghost use Rattle.gates.specs.Tsc1.{tsc1_card};
ghost use Rattle.stepping.specs.State.{used, Holds};
ghost use Rattle.sample.specs.Drawn.{sample};

use super::draw;
use super::draw::Sample;
use outputs::tsc1;
use tsc::State;

// The rank among several ties, as `draw::draw_rank` gives it for TSC-1's card.
pub fn draw_rank(s: State, k: u32) -> Sample
    requires { Holds tsc1_card s × (0 < k) × (k ≢ 1) }
    ensures { result ≡ sample tsc1_card (used tsc1_card s) k }
{
    draw::rank_by(tsc1::next_output, 32, s, k)
}
