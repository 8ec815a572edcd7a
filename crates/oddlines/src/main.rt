// Replays many sessions of lines that are mostly refused, parted by lines `----`, from standard input. A program of its own: each has one input.
#![tactic(auto)]

use session::driver::replay;
use std::io;

fn main(rt: HostRuntime) -> io::Result<()> {
    replay(&rt, rt.stdin())
}
