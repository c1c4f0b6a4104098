// Cases in standard input, replayed: each line is a call with what is handed over, and is answered by a line. README.md has the form of the cases. The file stdin
// has those of cases/papers.txt and the second program's.
#![tactic(auto)]

mod input;
mod line;

use std::io;

fn main(rt: HostRuntime) -> io::Result<()> {
    input::replay_input(&mut rt.reader(), &mut io::writer(&rt))
}
