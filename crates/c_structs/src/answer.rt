// Answers made into the structs that C sees: the values and refusal 0, or zeros and the refusal's number. They are functions, since an impl of From would have
// to stand in the crate of the structs.
ghost use Rattle.std.specs.Prelude.{◌≡◌, Err};
ghost use Rattle.c_answers.specs.Answers.{drawn, choice, written_length, card_values, card_reading};

use c_answers::{CardReading, CardValues, Choice, DrawnWord, WrittenLength};
use picks::Pick;
use tsc::{Card, TABLE_SIZE};

// A draw's answer.
pub fn word_of(answer: Result<u32, u8>) -> DrawnWord
    ensures { result ≡ drawn answer }
{
    match answer {
        Ok(word) => DrawnWord {
            word: word,
            refusal: 0,
        },
        Err(refusal) => DrawnWord {
            word: 0,
            refusal: refusal,
        },
    }
}

// A pick's.
pub fn choice_of(answer: Pick) -> Choice
    ensures { result ≡ choice answer }
{
    match answer {
        Pick::Shovel(number, ties, taken) => Choice {
            shovel: number,
            ties: ties,
            taken: taken,
            refusal: 0,
        },
        Pick::Refused(number) => Choice {
            shovel: 0,
            ties: 0,
            taken: 0,
            refusal: number,
        },
    }
}

// The writer's.
pub fn length_of(answer: Result<usize, u8>) -> WrittenLength
    ensures { result ≡ written_length answer }
{
    match answer {
        Ok(length) => WrittenLength {
            length: length,
            refusal: 0,
        },
        Err(refusal) => WrittenLength {
            length: 0,
            refusal: refusal,
        },
    }
}

// The reader's.
pub fn reading_of(answer: Result<Card, u8>) -> CardReading
    ensures { result ≡ card_reading answer }
{
    match answer {
        Ok(card) => CardReading {
            card: values_of(card),
            refusal: 0,
        },
        Err(refusal) => refused_reading(refusal),
    }
}

// A card's values.
fn values_of(card: Card) -> CardValues
    ensures { result ≡ card_values card }
{
    let table = card.table;
    CardValues {
        words: card.words,
        width: card.width,
        odd_power: card.odd_power,
        even_power: card.even_power,
        filter: card.filter,
        sum_term: card.sum_term,
        constant: card.constant,
        table: table,
    }
}

// The refusal of this number, and zeros.
fn refused_reading(number: u8) -> CardReading
    ensures { result ≡ card_reading (Err number) }
{
    let table = [0; TABLE_SIZE];
    CardReading {
        card: CardValues {
            words: 0,
            width: 0,
            odd_power: 0,
            even_power: 0,
            filter: 0,
            sum_term: 0,
            constant: 0,
            table: table,
        },
        refusal: number,
    }
}
