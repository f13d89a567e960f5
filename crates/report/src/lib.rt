// The report program on slices, step by step. In each state it wants some bytes of the input. What it gets of them brings it to the next state, with
// lines to print.
#![tactic(auto)]

mod ahead;
mod lines;
mod map;

ghost use Rattle.std.specs.Prelude.{◌≡◌, ◌+◌, ◌*◌, ◌≤◌, length};
ghost use Rattle.model.specs.Map.{table_size};
ghost use Rattle.program.specs.Opening.{most_slots, longest_file};
ghost use Rattle.report.specs.Steps.{wants};
ghost use Rattle.report.specs.Promises.{none, longest_line, SumsRoom, Within, Ready, FedAs, Worked};

use ahead::{ahead, refuse};
use map::map_line;
use numbers::Cursor;

// Where a report is:
// - `Start`: the number of maps comes next.
// - `File`: a map file of `long` bytes comes next, and `left` maps come after it.
// - `End`: the report has ended.
#[derive(Clone, Copy)]
pub enum State {
    Start,
    File { left: usize, long: usize },
    End,
}

// The state after a step, the sums of the maps that were counted, and how many bytes were printed.
#[derive(Clone, Copy)]
pub struct Fed {
    pub state: State,
    pub sums: [u32; 6],
    pub printed: usize,
}

// How many bytes of the input the next step wants; none at the end of the report.
pub fn wanted(s: State) -> usize
    requires { Within s }
    ensures { result ≡ wants s }
{
    match s {
        State::Start => 4,
        State::File { left: _, long } => long + 2,
        State::End => 0,
    }
}

// The first step: reads the number of maps, and what comes after it.
fn begin(sums: [u32; 6], piece: &[u8], out: &mut [u8]) -> Fed
    requires sums_value { sums ≡ none }
    requires longest_line_in_bounds { 2 * longest_line ≤ length out.old }
    ensures { FedAs State.Start sums piece.now out.old result out.new }
{
    let size = piece.len();
    if size < 2 {
        return refuse(sums, out, 0);
    }
    let place = Cursor { at: 0 };
    let (maps, _) = place.number::<2>(piece);
    ahead(maps as usize, sums, &piece[2..size], out, 0)
}

// A step over the file of a map: prints its line, and reads what comes after it.
fn file(
    left: usize,
    long: usize,
    sums: [u32; 6],
    piece: &[u8],
    table: &mut [u32],
    store: &mut [u32],
    out: &mut [u8],
) -> Fed
    requires sums_room { SumsRoom (left + 1) sums }
    requires long_le_longest_file { long ≤ longest_file }
    requires table_len { length table.old ≡ table_size most_slots }
    requires store_len { length store.old ≡ 16 * most_slots }
    requires longest_line_in_bounds { 2 * longest_line ≤ length out.old }
    ensures fed_as { FedAs (State.File left long) sums piece.now out.old result out.new }
    ensures worked { Worked (State.File left long) piece.now table.old store.old table.new store.new }
{
    let size = piece.len();
    if size < long {
        return refuse(sums, out, 0);
    }
    let line = map_line(&piece[..long], sums, table, store, out);
    let total = line.sums;
    ahead(left, total, &piece[long..size], out, line.printed)
}

// Takes a step. `sums` are those of the maps before it, and `piece` is as many of the wanted bytes as the input has. Table and store are working
// space.
pub fn feed(
    s: State,
    sums: [u32; 6],
    piece: &[u8],
    table: &mut [u32],
    store: &mut [u32],
    out: &mut [u8],
) -> Fed
    requires ready { Ready s sums }
    requires table_len { length table.old ≡ table_size most_slots }
    requires store_len { length store.old ≡ 16 * most_slots }
    requires longest_line_in_bounds { 2 * longest_line ≤ length out.old }
    ensures fed_as { FedAs s sums piece.now out.old result out.new }
    ensures worked { Worked s piece.now table.old store.old table.new store.new }
{
    match s {
        State::Start => begin(sums, piece, out),
        State::File { left, long } => file(left, long, sums, piece, table, store, out),
        State::End => Fed {
            state: State::End,
            sums,
            printed: 0,
        },
    }
}
