// Checking a card: refusals 1 to 9, and demand 3.
ghost use Rattle.std.specs.Prelude.{◌≡◌, ℕ, ◌^◌, ◌<◌, ◌≤◌};
ghost use Rattle.tsc.specs.Constants.{most_words};
ghost use Rattle.tsc.specs.Step.{entry};
ghost use Rattle.refusals.specs.Refusals.{first_of, numbered, told};
ghost use Rattle.card_format.specs.Verdict.{period_checks, verdict, ZeroIffCovers, accepting};

use card_read::read;
use card_table::table;
use refusals::Refusal;
use tsc::Card;

// The first of refusals 7 to 9 that applies to a card. The check and the writer call it once refusals 1 to 6 are ruled out.
pub fn period_refusal(card: &Card) -> Result<(), Refusal>
    requires { (card.now.words ≤ most_words) × ((y : ℕ) → y < 2 ^ card.now.words → entry card.now y < 2 ^ card.now.words) }
    ensures { told result ≡ first_of (period_checks card.now) }
{
    let size = table::entries(card.words as u32);
    if table::first_return(&card.table, size) != size {
        return Err(Refusal::NotSingleCycle);
    }
    if card.constant % 2 == 0 {
        return Err(Refusal::EvenConstant);
    }
    if card.odd_power % 2 == 0 || card.even_power % 2 == 1 {
        return Err(Refusal::PowerParity);
    }
    Ok(())
}

// Any bytes as an accepted card: the eight values, or the first of refusals 1 to 9 that applies. Each call that works by a card asks this
// first: on a card alone here, on a card and a state where the card was read (call_check::check::look).
pub fn accept(card: &[u8]) -> Result<Card, Refusal>
    ensures { numbered result ≡ accepting card.now }
{
    // not taken out of the reader's answer, which would copy the card
    let found = read::read(card);
    if let Ok(values) = &found {
        period_refusal(values)?;
    }
    found
}

// The verdict on any bytes: an accepted card, or its refusal, 1 to 9. DEMAND 3: for a card of sound form and any start it is accepted exactly where the orbit
// passes every state once and then returns.
pub fn check(card: &[u8]) -> Result<(), Refusal>
    ensures told { told result ≡ verdict card.now }
    ensures covers { ZeroIffCovers card.now (told result) }
{
    accept(card)?;
    Ok(())
}
