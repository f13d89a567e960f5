// The bench program on slices: from the bytes of its standard input to those that it prints.
#![tactic(auto)]

mod answer;
mod framing;
mod session;
mod writer;

ghost use Rattle.std.specs.Prelude.{◌≤◌, length};
ghost use Rattle.bench.specs.Session.{longest, Printed};

use framing::frame;
use program::answer::number;
use program::lines::refused_line;
use program::opening::{STORE, TABLE, open};
use session::session;
use table::words::size;

// Prints to the start of `out`, and returns the number of bytes.
pub fn run(input: &[u8], out: &mut [u8]) -> usize
    requires { longest ≤ length out.old }
    ensures { Printed input.now out.old result out.new }
{
    let Some(layout) = frame(input) else {
        return refused_line(out, 0, 11);
    };
    let end = 2 + layout.map;
    let file = &input[2..end];
    let mut table = [0u32; TABLE];
    match open(file, &mut table) {
        Err(f) => refused_line(out, 0, number(Err(f))),
        Ok(map) => {
            let mut store = [0u32; STORE];
            let words = size(map.slots);
            let places = 16 * (map.slots as usize);
            session(
                input,
                layout,
                map.n,
                map.slots,
                &mut table[..words],
                &mut store[..places],
                out,
            )
        }
    }
}
