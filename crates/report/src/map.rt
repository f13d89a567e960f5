// The line of a map, and the sums with it.
ghost use Rattle.std.specs.Prelude.{◌≡◌, ◌*◌, ◌≤◌, length, replicate};
ghost use Rattle.model.specs.Answer.{number as number_of};
ghost use Rattle.model.specs.Map.{view, table_size};
ghost use Rattle.model.specs.Count.{counts as counts_of};
ghost use Rattle.model.specs.Calls.{check_table};
ghost use Rattle.program.specs.Opening.{most_slots};
ghost use Rattle.report.specs.Report.{sum as sum_of};
ghost use Rattle.report.specs.Promises.{longest_line, SumsRoom, Few, Lined, MapWorked};

use crate::lines::count_line;
use program::answer::number;
use program::lines::refused_line;
use program::opening::open;
use std::array::from_fn;
use table::words::size;

// How many bytes were printed, and the sums with the map's counts.
#[derive(Clone, Copy)]
pub struct Line {
    pub printed: usize,
    pub sums: [u32; 6],
}

// The counts of a well-formed map. The store is working space, and is zero afterwards.
fn counts(n: u32, slots: u32, table: &[u32], store: &mut [u32]) -> [u32; 6]
    requires table_value { number_of (check_table n slots table.now) ≡ 0 }
    requires store_len { length store.old ≡ 16 * slots }
    ensures value { result ≡ counts_of n (view slots table.now) }
    ensures store_after { store.new ≡ replicate (16 * slots) 0 }
{
    let mut c = [0u32; 6];
    // It is done, since the map is well-formed.
    let _ = kernel::count(n, slots, table, store, &mut c);
    c
}

// Adds six numbers to six, one by one.
fn sum(a: [u32; 6], c: [u32; 6]) -> [u32; 6]
    requires sums_room { SumsRoom 1 a }
    requires few { Few c }
    ensures { result ≡ sum_of a c }
{
    from_fn(|i| a[i] + c[i])
}

// Prints the counts of the file's map and adds them to the sums. If the file is refused, prints the refusal and adds nothing. Table and store are
// working space.
pub fn map_line(
    file: &[u8],
    sums: [u32; 6],
    table: &mut [u32],
    store: &mut [u32],
    out: &mut [u8],
) -> Line
    requires sums_room { SumsRoom 1 sums }
    requires table_len { length table.old ≡ table_size most_slots }
    requires store_len { length store.old ≡ 16 * most_slots }
    requires longest_line_in_bounds { longest_line ≤ length out.old }
    ensures lined { Lined file.now sums out.old result out.new }
    ensures map_worked { MapWorked file.now table.old store.old table.new store.new }
{
    match open(file, table) {
        Err(f) => Line {
            printed: refused_line(out, 0, number(Err(f))),
            sums,
        },
        Ok(map) => {
            let words = size(map.slots);
            let places = 16 * (map.slots as usize);
            let c = counts(map.n, map.slots, &table[..words], &mut store[..places]);
            Line {
                printed: count_line(out, 0, c),
                sums: sum(sums, c),
            }
        }
    }
}
