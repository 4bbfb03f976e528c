// Shows a frame's log: reads calls from standard input, makes them on one record from idle, and writes a line for each to standard output.
// A log longer than the buffer's 65,536 bytes is judged by its first 65,536.
#![tactic(auto)]

use std::io;

fn main(rt: HostRuntime) -> io::Result<()> {
    let mut log = [0u8; 65536];
    let n = input::fill(&mut rt.reader(), &mut log)?;
    replaying::replay(&rt, &log[..n]).written
}
