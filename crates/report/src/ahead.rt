// What comes after the number of maps, and after the file of each: the length of the next file, or the end of the input.
ghost use Rattle.std.specs.Prelude.{◌+◌, ◌≤◌, length};
ghost use Rattle.report.specs.Promises.{longest_line, SumsRoom, RefusedAs, AheadAs};

use crate::lines::count_line;
use crate::{Fed, State};
use numbers::Cursor;
use program::lines::refused_line;
use program::opening::LONGEST_FILE;

// Ends the report with refusal 11.
pub fn refuse(sums: [u32; 6], out: &mut [u8], at: usize) -> Fed
    requires { at + longest_line ≤ length out.old }
    ensures { RefusedAs sums out.old at result out.new }
{
    Fed {
        state: State::End,
        sums,
        printed: refused_line(out, at, 11),
    }
}

// Ends the report after the last map: prints the totals, or refuses if a byte comes after it.
fn last(sums: [u32; 6], tail: &[u8], out: &mut [u8], at: usize) -> Fed
    requires sums_room { SumsRoom 0 sums }
    requires longest_line_in_bounds { at + longest_line ≤ length out.old }
    ensures { AheadAs 0 sums tail.now out.old at result out.new }
{
    if tail.len() != 0 {
        return refuse(sums, out, at);
    }
    Fed {
        state: State::End,
        sums,
        printed: count_line(out, at, sums),
    }
}

// Goes on with `left` maps to come. `tail` is what follows in the piece: the length of the next file, or nothing after the last map.
pub fn ahead(left: usize, sums: [u32; 6], tail: &[u8], out: &mut [u8], at: usize) -> Fed
    requires sums_room { SumsRoom left sums }
    requires longest_line_in_bounds { at + longest_line ≤ length out.old }
    ensures { AheadAs left sums tail.now out.old at result out.new }
{
    if left == 0 {
        return last(sums, tail, out, at);
    }
    if tail.len() < 2 {
        return refuse(sums, out, at);
    }
    let place = Cursor { at: 0 };
    let (long, _) = place.number::<2>(tail);
    let long = long as usize;
    if LONGEST_FILE < long {
        return refuse(sums, out, at);
    }
    Fed {
        state: State::File {
            left: left - 1,
            long,
        },
        sums,
        printed: at,
    }
}
