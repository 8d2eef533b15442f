// The command program: a call a line on standard input, an answer a line on standard output.
// It holds one replica in its own arrays, which are lent to each call.
#![tactic(auto)]

mod areas;
mod calls;
mod commands;
mod lines;

use std::io;

// Both areas of one replica, empty, and the lines of standard input.
fn main(rt: HostRuntime) -> io::Result<()> {
    let mut records = [0u8; 30160];
    let mut bodies = [0u8; 5664];
    // the longest line with its newline
    let mut buffer = [0u8; 131072];
    // the longest line of output is a dump of the record area
    let mut out = [0u8; 65536];
    lines::run(
        &mut rt.stdin(),
        &mut rt.stdout(),
        &mut records,
        &mut bodies,
        &mut buffer,
        &mut out,
    )
}
