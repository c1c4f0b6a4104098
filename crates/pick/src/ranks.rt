// A rank drawn among several ties on lent state words, which are moved on. The pick has seen that nothing is refused, and that there are several.
ghost use Rattle.std.specs.Prelude.{◌≡◌, ◌≢◌, ◌<◌};
ghost use Rattle.tsc.specs.Coverage.{IsState};
ghost use Rattle.card_format.specs.Verdict.{Accepted};
ghost use Rattle.gates.specs.Tsc1.{tsc1_card, OnlyTsc1};
ghost use Rattle.samples.specs.Samples.{drawn_state};
ghost use Rattle.sample.specs.Drawn.{sample};

use sample::draw::Sample;
use sample::{draw, tsc1};
use state_words::lent;
use tsc::Card;

// By TSC-1, by its gate formulas.
fn tsc1_rank(state: &mut [u32], k: u32) -> Sample
    requires { IsState tsc1_card state.old × (0 < k) × (k ≢ 1) }
    ensures drawn { result ≡ sample tsc1_card state.old k }
    ensures after { state.new ≡ drawn_state tsc1_card state.old k }
{
    let held = lent::load(state);
    let made = tsc1::draw_rank(held, k);
    lent::store(made.state, state);
    made
}

// By a card: TSC-1's by its gate formulas, where the pick has found it. Each way loads the state for itself, so that neither has to serve the other.
pub fn draw_rank(card: Card, is_tsc1: bool, state: &mut [u32], k: u32) -> Sample
    requires { Accepted card × OnlyTsc1 is_tsc1 card × IsState card state.old × (0 < k) × (k ≢ 1) }
    ensures drawn { result ≡ sample card state.old k }
    ensures after { state.new ≡ drawn_state card state.old k }
{
    if is_tsc1 {
        return tsc1_rank(state, k);
    }
    let held = lent::load(state);
    let drawn = draw::draw_rank(card, held, k);
    lent::store(drawn.state, state);
    drawn
}
