// Replays many sessions, parted by lines `----`, from standard input.
#![tactic(auto)]

use session::driver::replay;
use std::io;

fn main(rt: HostRuntime) -> io::Result<()> {
    replay(&rt, rt.stdin())
}
