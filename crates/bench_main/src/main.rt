// The bench program: standard input goes to `bench::run`, and what it prints to standard output.
// Both buffers are longer than the longest input and output. So an input that does not fit is a framing fault, and what is read of it is one too.
// It ends quietly where nobody reads what it prints.
#![tactic(auto)]

use program::input::fill;
use std::io;
use std::io::Write;

fn main(rt: HostRuntime) -> io::Result<()> {
    let mut input = [0u8; 65536];
    let mut out = [0u8; 65536];
    let read = fill(&mut rt.stdin(), &mut input)?;
    let written = bench::run(&input[..read], &mut out);
    if rt.stdout().write_all(&out[..written]).is_err() {
        return Ok(());
    }
    Ok(())
}
