// The program on other inputs, the files in data/: P1 and P2 of document 01, a refused card (P7), no bytes, 600 bytes, of which it reads 512, and a card of
// eight words with every field, 267 bytes; and one that isn't there, which has no verdict.
#![tactic(auto)]

use std::{fs, io};

fn main(rt: HostRuntime) -> io::Result<()> {
    inspect::print_from(&rt, fs::open(&rt, "p1"))?;
    inspect::print_from(&rt, fs::open(&rt, "p2"))?;
    inspect::print_from(&rt, fs::open(&rt, "refused"))?;
    inspect::print_from(&rt, fs::open(&rt, "nothing"))?;
    inspect::print_from(&rt, fs::open(&rt, "long"))?;
    inspect::print_from(&rt, fs::open(&rt, "eight_words"))?;
    inspect::print_from(&rt, fs::open(&rt, "missing"))
}
