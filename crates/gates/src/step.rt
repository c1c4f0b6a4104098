// The step of TSC-1: all columns of a state put through its table together, by gates on whole words. A state of TSC-1 is any four words, so nothing is asked of it.
ghost use Rattle.std.specs.Prelude.{◌≡◌, take};
ghost use Rattle.tsc.specs.Selector.{selector};
ghost use Rattle.tsc.specs.Step.{step};
ghost use Rattle.stepping.specs.State.{used, holding};
ghost use Rattle.gates.specs.Tsc1.{tsc1_card, gated};

use std::num::wrapping_add_u32;
use tsc::{MOST_WORDS, State, TSC1_CONSTANT};

// The selector of the first four words, document 002 (13).
fn selector_of(s: State) -> u32
    ensures { result ≡ selector tsc1_card (used tsc1_card s) }
{
    let x0 = s.words[0];
    let x1 = s.words[1];
    let x2 = s.words[2];
    let x3 = s.words[3];
    let p = x0 & (x1 & (x2 & x3));
    let sum = wrapping_add_u32(x0, wrapping_add_u32(x1, wrapping_add_u32(x2, x3)));
    wrapping_add_u32(p, TSC1_CONSTANT) ^ p ^ wrapping_add_u32(sum, sum)
}

// Every column of the first four words once through the table where z has a 1, and twice where it has a 0.
fn replace_columns(s: State, z: u32) -> State
    ensures { result ≡ holding (gated (take 4 s.words) z) }
{
    let t0 = s.words[0];
    let t1 = s.words[1];
    let t2 = s.words[2];
    let t3 = s.words[3];
    // document 002 (16)
    let u0 = !t3 ^ (t2 & !t1 & t0);
    let u1 = t2 ^ (t3 & t1 & t0) ^ (!t3 & !t1 & !t0);
    let u2 = t0 ^ (t3 & !t2 & !t1);
    let u3 = t1 ^ (t3 & t2 & !t0);
    // document 002 (17)
    let v0 = !t1 ^ (t3 & t2 & !t0) ^ (!t3 & !t2 & t0);
    let v1 = t0 ^ (!t3 & t2 & t1);
    let v2 = !t3 ^ (t2 & !t1 & t0) ^ (!t2 & t1 & !t0);
    let v3 = t2 ^ (!t3 & !t1 & !t0);
    let mut out = State {
        words: [0; MOST_WORDS],
    };
    out.words[0] = (z & u0) | (!z & v0);
    out.words[1] = (z & u1) | (!z & v1);
    out.words[2] = (z & u2) | (!z & v2);
    out.words[3] = (z & u3) | (!z & v3);
    out
}

// The step.
pub fn next_state(s: State) -> State
    ensures { result ≡ holding (step tsc1_card (used tsc1_card s)) }
{
    replace_columns(s, selector_of(s))
}
