// The workbench: keeps one board over standard input, and answers each line on standard output.
#![tactic(auto)]

use bench::driver::serve;
use std::io;

fn main(rt: HostRuntime) -> io::Result<()> {
    serve(&rt, rt.stdin())
}
