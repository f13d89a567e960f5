// The map file: writing a map, and loading a file into a table. Whether the loaded map is well-formed is not asked here.
#![tactic(auto)]

mod form;
mod places;
mod records;
mod sections;

ghost use Rattle.std.specs.Prelude.{◌≡◌, ◌⊎◌, ◌++◌, ◌^◌, ◌≤◌, ◌<◌, length, drop};
ghost use Rattle.model.specs.File.{live_darts, file, file_form};
ghost use Rattle.model.specs.Calls.{loaded};
ghost use Rattle.table.specs.Words.{Sized};
ghost use Rattle.table.specs.Seen.{map_of};
ghost use Rattle.file.specs.Form.{file_size};

use base::clear;
use form::{ascending, frame};
use places::size_in;
use records::fill;
use sections::{Part, head, section};
use table::words::Table;

// How many bytes N, a count, a slot and a link have in a file.
const WIDTH: usize = 2;

// How many bytes the file of a map with so many live darts has.
pub fn size(n: u32, darts: usize) -> usize
    requires { (n ≤ 3) × (darts ≤ 65535) }
    ensures { (result ≡ file_size n darts) × (result < 2 ^ 32) }
{
    size_in::<WIDTH>(n, darts)
}

// The darts of a file in a table, all other records zero; or a table of zeros, where the bytes are no file for n and the number of slots.
pub fn load(n: u32, slots: usize, table: &mut [u32], bytes: &[u8]) -> bool
    requires dimension { (n ≡ 2) ⊎ (n ≡ 3) }
    requires sized { Sized slots table.old }
    ensures { (result ≡ file_form n slots bytes.now) × (table.new ≡ loaded n slots table.old bytes.now) }
{
    clear(table);
    let Some(darts) = frame::<WIDTH>(n, slots, bytes) else {
        return false;
    };
    if !ascending::<WIDTH>(slots, bytes, darts) {
        return false;
    }
    fill::<WIDTH>(n, slots, table, bytes, darts);
    true
}

// The file of a map with `live` live darts, at the start of `out`.
pub fn write(n: u32, table: &Table<'_>, live: usize, out: &mut [u8])
    requires dimension { (n ≡ 2) ⊎ (n ≡ 3) }
    requires live_value { live ≡ live_darts (map_of table.now) }
    requires file_in_bounds { length (file n (map_of table.now)) ≤ length out.old }
    ensures { out.new ≡ file n (map_of table.now)
        ++ drop (length (file n (map_of table.now))) out.old }
{
    let a = head::<WIDTH>(n, table.slots, out);
    let b = section::<WIDTH>(Part::Slots, n, table, live, out, a);
    let c = section::<WIDTH>(Part::Tags, n, table, live, out, b);
    let _end = section::<WIDTH>(Part::Links, n, table, live, out, c);
}
