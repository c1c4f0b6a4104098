// A margin's answer made into the struct that C sees.
ghost use Rattle.std.specs.Prelude.{◌≡◌};
ghost use Rattle.c_answers.specs.Answers.{margin_answer};

use c_answers::MarginAnswer;
use margins::Nearest;

// The change, the changed pick and refusal 0, or zeros and the refusal's number.
pub fn margin_of(answer: Result<Nearest, u8>) -> MarginAnswer
    ensures { result ≡ margin_answer answer }
{
    match answer {
        Ok(nearest) => MarginAnswer {
            seconds: nearest.seconds,
            changed: nearest.changed,
            shovel: nearest.shovel,
            raised: u8::from(nearest.raised),
            ties: nearest.ties,
            taken: nearest.taken,
            refusal: 0,
        },
        Err(refusal) => MarginAnswer {
            seconds: 0,
            changed: 0,
            shovel: 0,
            raised: 0,
            ties: 0,
            taken: 0,
            refusal: refusal,
        },
    }
}
