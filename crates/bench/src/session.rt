// A session on an open map: the map is edited at each dart in turn, and then its live and its unused slots are counted.
ghost use Rattle.std.specs.Prelude.{◌≡◌, ◌+◌, ◌*◌, ◌≤◌, eqb, length};
ghost use Rattle.base.specs.Below.{count_below};
ghost use Rattle.model.specs.Calls.{edit_answer, edit_table, edit_store};
ghost use Rattle.bench.specs.Bench.{map_bytes, scheme_bytes, table_after};
ghost use Rattle.numbers.specs.Places.{Put};
ghost use Rattle.table.specs.Seen.{map_of};
ghost use Rattle.program.specs.Opening.{MapOpen};
ghost use Rattle.bench.specs.Input.{Laid};
ghost use Rattle.bench.specs.Session.{Stands, dart_lines, longest, Wrote};

use crate::framing::Layout;
use crate::writer::{dart_line, last_line};
use model::{Answer, Darts};
use numbers::Cursor;
use table::words::Table;

// Edits the map at a dart.
fn edit(
    input: &[u8],
    layout: Layout,
    n: u32,
    slots: u32,
    table: &mut [u32],
    store: &mut [u32],
    dart: u32,
) -> Answer
    requires { Laid input.now layout }
    ensures value { result ≡ edit_answer n slots table.old store.old (scheme_bytes input.now) (Darts.One dart) }
    ensures table_after { table.new ≡ edit_table n slots table.old store.old (scheme_bytes input.now) (Darts.One dart) }
    ensures store_after { store.new ≡ edit_store n slots table.old store.old (scheme_bytes input.now) (Darts.One dart) }
{
    let start = 4 + layout.map;
    let end = start + layout.scheme;
    kernel::edit(n, slots, table, store, &input[start..end], dart)
}

// Edits at each dart in turn, and prints a line for each.
fn edits(
    input: &[u8],
    layout: Layout,
    n: u32,
    slots: u32,
    table: &mut [u32],
    store: &mut [u32],
    out: &mut [u8],
) -> usize
    requires laid { Laid input.now layout }
    requires map_open { MapOpen (map_bytes input.now) n slots }
    requires stands { Stands input.now slots 0 table.old store.old }
    requires lines_in_bounds { 23 * layout.darts ≤ length out.old }
    ensures put { Put out.old 0 (dart_lines input.now layout.darts) out.new result }
    ensures upper_bound { result ≤ 23 * layout.darts }
    ensures table_after { table.new ≡ table_after input.now layout.darts }
{
    let first = 6 + layout.map + layout.scheme;
    let mut at = 0;
    for k in 0..layout.darts {
        let place = Cursor { at: first + 2 * k };
        let (dart, _) = place.number::<2>(input);
        let answer = edit(input, layout, n, slots, table, store, dart);
        at = dart_line(out, at, dart, answer);
    }
    at
}

// How many slots have the state s.
fn tally(table: &Table<'_>, s: u32) -> u32
    ensures { result ≡ count_below table.now.slots (λ x. eqb ((map_of table.now).state x) s) }
{
    let mut found = 0;
    for x in 0..table.slots {
        if table.state(x) == s {
            found += 1;
        }
    }
    found
}

// Runs the session. The input's map is open in the table, and the store is empty; both have the length that the map's slots ask for.
pub fn session(
    input: &[u8],
    layout: Layout,
    n: u32,
    slots: u32,
    table: &mut [u32],
    store: &mut [u32],
    out: &mut [u8],
) -> usize
    requires laid { Laid input.now layout }
    requires map_open { MapOpen (map_bytes input.now) n slots }
    requires stands { Stands input.now slots 0 table.old store.old }
    requires longest_in_bounds { longest ≤ length out.old }
    ensures { Wrote input.now out.old result out.new }
{
    let at = edits(input, layout, n, slots, table, store, out);
    let edited = Table {
        slots: slots as usize,
        words: table,
    };
    let live = tally(&edited, 1);
    let unused = tally(&edited, 0);
    last_line(out, at, live, unused)
}
