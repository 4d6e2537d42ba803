// What the programs read with: a buffer on the stack is filled, and no memory is asked for.
#![tactic(auto)]

ghost use Rattle.std.specs.Prelude.{◌≤◌, length, take, IfOk};
ghost use Rattle.std.specs.Io.KnownBytes.{Consumes};

use std::io;
use std::io::{ErrorKind, Read};

// Fills the buffer until it or what is read ends; how many bytes were read. They stand at the front of the buffer, and the reader has given no other.
// A read that a signal broke off is tried again.
pub fn read_full<R: Read>(reader: &mut R, buf: &mut [u8]) -> io::Result<usize>
    ensures within { IfOk result (λ n. n ≤ length buf.new) }
    ensures bytes { IfOk result (λ n. Consumes (R.remaining reader.old) (R.remaining reader.new) (take n buf.new)) }
{
    let mut n: usize = 0;

    // Signals may break off a read any number of times, and a loop has to end: so many reads never come.
    for _ in 0..u64::MAX {
        if n == buf.len() {
            return Ok(n);
        }
        match reader.read(&mut buf[n..]) {
            Ok(0) => return Ok(n),
            Ok(k) => n += k,
            Err(error) => {
                if error.kind() != ErrorKind::Interrupted {
                    return Err(error);
                }
            }
        }
    }
    Ok(n)
}
