// Which bytes are TSC-1's card.
ghost use Rattle.std.specs.Prelude.{◌≡◌, true, ◌↔◌};
ghost use Rattle.card_format.specs.Examples.{p1};

// Whether the bytes are those of P1, the one byte 00. No other accepted card has its values (`tsc1-alone`).
pub fn is_tsc1(card: &[u8]) -> bool
    ensures { (result ≡ true) ↔ (card.now ≡ p1) }
{
    if card.len() != 1 {
        return false;
    }
    card[0] == 0
}
