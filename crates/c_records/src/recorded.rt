// What desk and cab are answered, made into the structs that C sees. They are functions, since an impl of From would have to stand in the crate of the structs.
ghost use Rattle.std.specs.Prelude.{◌≡◌};
ghost use Rattle.c_answers.specs.Records.{record_values, no_record, record_answer, order_answer};

use c_answers::{OrderAnswer, RecordAnswer, RecordValues};
use records::Record;
use tsc::{MOST_WORDS, State};

// The fields of a record: beside each that may lack a flag.
fn values_of(held: Record) -> RecordValues
    ensures { result ≡ record_values held }
{
    RecordValues {
        state: held.state.words,
        truck: held.truck,
        shovel: held.shovel,
        ties_given: u8::from(held.ties.is_some()),
        ties: held.ties.unwrap_or(0),
        taken_given: u8::from(held.taken.is_some()),
        taken: held.taken.unwrap_or(0),
        state_given: u8::from(held.words.is_some()),
        words: held.words.unwrap_or(0),
    }
}

// The record that goes with a refusal.
fn no_record() -> Record
    ensures { result ≡ no_record }
{
    Record {
        truck: 0,
        shovel: 0,
        ties: None,
        taken: None,
        words: None,
        state: State {
            words: [0; MOST_WORDS],
        },
    }
}

// The desk's answer: every field and refusal 0, or zeros and the refusal.
pub fn record_of(answer: Result<Record, u8>) -> RecordAnswer
    ensures { result ≡ record_answer answer }
{
    match answer {
        Ok(record) => RecordAnswer {
            values: values_of(record),
            refusal: 0,
        },
        Err(refusal) => RecordAnswer {
            values: values_of(no_record()),
            refusal: refusal,
        },
    }
}

// A cab's: the shovel and refusal 0, or 0 and the refusal.
pub fn order_of(answer: Result<u16, u8>) -> OrderAnswer
    ensures { result ≡ order_answer answer }
{
    match answer {
        Ok(shovel) => OrderAnswer {
            shovel: shovel,
            refusal: 0,
        },
        Err(refusal) => OrderAnswer {
            shovel: 0,
            refusal: refusal,
        },
    }
}
