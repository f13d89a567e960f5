// The report program: pieces of standard input go to `report::feed` as it wants them, and what it prints goes to standard output.
// It ends quietly where nobody reads on.
#![tactic(auto)]

use program::input::fill;
use program::opening::{STORE, TABLE};
use report::State;
use std::io;
use std::io::Write;

fn main(rt: HostRuntime) -> io::Result<()> {
    let mut input = [0u8; 65536];
    let mut out = [0u8; 4096];
    let mut table = [0u32; TABLE];
    let mut store = [0u32; STORE];
    let mut state = State::Start;
    let mut sums = [0u32; 6];
    let mut want = report::wanted(state);
    // no `for`, since what is wanted next hangs on what was read
    while want != 0 {
        let got = fill(&mut rt.stdin(), &mut input[..want])?;
        let fed = report::feed(state, sums, &input[..got], &mut table, &mut store, &mut out);
        if rt.stdout().write_all(&out[..fed.printed]).is_err() {
            return Ok(());
        }
        state = fed.state;
        sums = fed.sums;
        want = report::wanted(state);
    }
    Ok(())
}
