// The program: reads a sheet and its pixels on standard input, and writes what they come to.
#![tactic(auto)]

use fill::read_full;
use std::io;

fn main(rt: HostRuntime) -> io::Result<()> {
    let mut input = [0u8; sheet::INPUT_SPACE];
    let mut out = [0u8; sheet::OUT_SPACE];
    let size = read_full(&mut rt.stdin(), &mut input)?;
    let answer = sheet::run(&input[..size], &mut out);
    rt.write_all(&out[..answer.written])
}
