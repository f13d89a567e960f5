// Opening a map file: the file itself names its n and its number of slots.
ghost use Rattle.std.specs.Prelude.{◌≡◌, ◌≤◌, length};
ghost use Rattle.model.specs.Map.{table_size};
ghost use Rattle.model.specs.Calls.{load_table};
ghost use Rattle.program.specs.Opening.{most_slots, Named, open_answer, open_table, OpenedAs};

use model::{Answer, Refusal};
use numbers::Cursor;
use table::words::{RECORD, size};

// The greatest number of slots that the programs take.
const MOST_SLOTS: u32 = 1024;

// The greatest length of a map file that they take.
pub const LONGEST_FILE: usize = 14345;

// The words of a table for the greatest number of slots.
pub const TABLE: usize = RECORD * MOST_SLOTS as usize;

// The words of a working store for the greatest number of slots.
pub const STORE: usize = 16 * MOST_SLOTS as usize;

// The map that a file is opened to: its n and its number of slots.
#[derive(Clone, Copy)]
pub struct Opened {
    pub n: u32,
    pub slots: u32,
}

// Loads the file's map into a table for its slots. If the load is done, checks the table. Returns the last answer.
fn load(file: &[u8], n: u32, slots: u32, table: &mut [u32]) -> Answer
    requires named { Named file.now n slots × (slots ≤ most_slots) }
    requires table_len { length table.old ≡ table_size slots }
    ensures value { result ≡ open_answer file.now }
    ensures table_after { table.new ≡ load_table n slots table.old file.now }
{
    kernel::load(n, slots, table, file)?;
    kernel::check_table(n, slots, table)
}

// Opens a file: loads its map, by the n and the number of slots that it names, and checks it. The table is for the greatest number of slots; the map
// goes to its start.
pub fn open(file: &[u8], table: &mut [u32]) -> Result<Opened, Refusal>
    requires { length table.old ≡ table_size most_slots }
    ensures opened_as { OpenedAs file.now result }
    ensures table_after { table.new ≡ open_table file.now table.old }
{
    if file.len() < 3 {
        return Err(Refusal::BadFile);
    }
    let start = Cursor { at: 0 };
    let (n, next) = start.number::<1>(file);
    let (slots, _) = next.number::<2>(file);
    if MOST_SLOTS < slots {
        return Err(Refusal::BadCall);
    }
    let words = size(slots);
    load(file, n, slots, &mut table[..words])?;
    Ok(Opened { n, slots })
}
