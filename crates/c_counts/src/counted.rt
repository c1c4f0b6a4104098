// A count's answer made into the struct that C sees. It is a function, since an impl of From would have to stand in the crate of the struct.
ghost use Rattle.std.specs.Prelude.{◌≡◌};
ghost use Rattle.c_answers.specs.Counts.{bit_counts_answer};

use bit_counts::Counts;
use c_answers::BitCountsAnswer;

// The four integers and refusal 0, or zeros and the refusal.
pub fn counts_of(answer: Result<Counts, u8>) -> BitCountsAnswer
    ensures { result ≡ bit_counts_answer answer }
{
    match answer {
        Ok(counts) => BitCountsAnswer {
            balance: counts.balance,
            forward: counts.forward,
            backward: counts.backward,
            runs: counts.runs,
            refusal: 0,
        },
        Err(refusal) => BitCountsAnswer {
            balance: 0,
            forward: 0,
            backward: 0,
            runs: 0,
            refusal: refusal,
        },
    }
}
