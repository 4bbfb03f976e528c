// Input read into an area that the caller lends, for programs that need no heap.
#![tactic(auto)]

ghost use Rattle.std.specs.Prelude.{◌≤◌, ◌<◌, length, take, IfOk};
ghost use Rattle.std.specs.Io.KnownBytes.{Consumes, IsAtEnd};

use std::io;
use std::io::Read;

// Reads until the area is full or the input ends, and answers how many bytes it put at the front of the area; the only error is that of a read.
pub fn fill<R: Read>(from: &mut R, area: &mut [u8]) -> io::Result<usize>
    ensures within { IfOk result (λ n. n ≤ length area.new) }
    ensures bytes { IfOk result (λ n. Consumes (R.remaining from.old) (R.remaining from.new) (take n area.new)) }
    ensures ended { IfOk result (λ n. n < length area.new → IsAtEnd (R.remaining from.new)) }
{
    let mut n = 0;
    // A read puts in as many bytes as it likes, so n counts them and is no index.
    while n < area.len() {
        let more = from.read(&mut area[n..])?;
        if more == 0 {
            return Ok(n);
        }
        n += more;
    }
    Ok(n)
}
