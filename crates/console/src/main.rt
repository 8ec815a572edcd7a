// The console: keeps one board over standard input and answers each line on standard output.
#![tactic(auto)]

use session::driver::serve;
use std::io;

fn main(rt: HostRuntime) -> io::Result<()> {
    serve(&rt, rt.stdin())
}
