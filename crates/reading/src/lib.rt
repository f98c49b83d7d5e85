// What the programs read of their input: into lent bytes, until these are full or the input ends.
#![tactic(auto)]

ghost use Rattle.std.specs.Prelude.{◌<◌, ◌≤◌, length, take, IfOk};
ghost use Rattle.std.specs.Io.KnownBytes.{Consumes, IsAtEnd};

use std::io;
use std::io::Read;

// Reads until the buffer is full or the input ends. Answers how many bytes it put at the buffer's
// start. The loop has no range: only the input knows how much each read gives.
pub fn read_full<R: Read>(from: &mut R, space: &mut [u8]) -> io::Result<usize>
    ensures bound { IfOk result (λ n. n ≤ length space.new) }
    ensures bytes { IfOk result (λ n.
        Consumes (R.remaining from.old) (R.remaining from.new) (take n space.new)) }
    ensures end { IfOk result (λ n. n < length space.new → IsAtEnd (R.remaining from.new)) }
{
    let mut len: usize = 0;
    while len < space.len() {
        let n = from.read(&mut space[len..])?;
        if n == 0 {
            break;
        }
        len += n;
    }
    Ok(len)
}
