#![tactic(auto)]

// What a pick answers and leaves, on the definitions. What that means is in specs/, and what holds of it in proofs/.
ghost use Rattle.std.specs.Prelude.{◌≡◌};

use refusals::Refusal;

// What a pick answers: the shovel's number, how many ties there were and how many words were taken; or the refusal's number. An enum of its own, since document 01
// asks for this form (Language forms in the code).
#[derive(Clone, Copy)]
pub enum Pick {
    Shovel(u16, u8, u8),
    Refused(u8),
}

// A refusal as it is answered: by its number. Inside the calls refusals go up with `?`.
impl From<Refusal> for Pick {
    ghost use Rattle.refusals.specs.Refusals.{number};
    ghost use Rattle.picks.specs.declared.Pick.TheVariants.{Refused};

    ghost from_gives = { λ refusal pick. pick ≡ Refused (number refusal) };

    fn from(refusal: Refusal) -> Pick {
        Pick::Refused(refusal.number())
    }
}
