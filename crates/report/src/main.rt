// The report: reads a plan stream from standard input, its first 4,096 bytes, and writes its report to standard output.
#![tactic(auto)]

use std::io;

fn main(rt: HostRuntime) -> io::Result<()> {
    input::inner::answer(&mut rt.stdin(), &mut rt.stdout(), listing::report)
}
