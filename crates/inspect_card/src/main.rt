// The program: the verdict on the card in standard input, and its first draws. On document 01's card.
#![tactic(auto)]

use std::io;

fn main(rt: HostRuntime) -> io::Result<()> {
    inspect::print_input(&rt)
}
