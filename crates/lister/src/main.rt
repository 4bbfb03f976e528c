// Reads a table from standard input, and prints its free-order plan or its refusal to standard output.
// The first 267 bytes settle the text (crate listing, proofs/Settled.antt), so input beyond the buffer's 4,096 changes nothing.
#![tactic(auto)]

use std::io;

fn main(rt: HostRuntime) -> io::Result<()> {
    let mut table = [0u8; 4096];
    let n = input::fill(&mut rt.reader(), &mut table)?;
    let mut out = [0u8; 1024];
    match listing::list_plan(&table[..n], &mut out) {
        Some(m) => rt.write_all(&out[..m]),
        None => Ok(()),
    }
}
