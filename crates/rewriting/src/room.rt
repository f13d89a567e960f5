// What must be done before new darts take the slots of deleted ones: the tags that the new darts get are read, and the deleted records become zeros.
ghost use Rattle.std.specs.Prelude.{◌≡◌, ◌+◌, ◌*◌, ◌≤◌, length};
ghost use Rattle.model.specs.Map.{view};
ghost use Rattle.table.specs.Words.{Sized};
ghost use Rattle.table.specs.Seen.{map_of};
ghost use Rattle.orbit.specs.Store.{dart_at};
ghost use Rattle.rewriting.specs.Darts.{HoldsSlots};
ghost use Rattle.rewriting.specs.Room.{erased, cleared, DeletedRows, Noted, Donating, Gathered, BeforeRoom, Roomy};

use orbit::store::word;
use table::words::{Table, blank};

// The tags of the darts of one node, in the store from `to` on.
fn note(table: &Table<'_>, store: &mut [u32], size: usize, from: usize, to: usize)
    requires holds_slots { HoldsSlots table.now.slots store.old from size }
    requires row_before { from + size ≤ to }
    requires inside { to + size ≤ length store.old }
    ensures { Noted (map_of table.now).tag store.old from to size store.new }
{
    for r in 0..size {
        let x = word(store, from + r);
        store[to + r] = table.tag(x);
    }
}

// The tags of the darts of the donors of the added nodes, where the darts of those nodes will stand.
fn gather(
    table: &Table<'_>,
    store: &mut [u32],
    size: usize,
    added: &[u8],
    donors: &[u8; 16],
    rows: &[usize; 16],
)
    requires donating { Donating table.now.slots store.old size added.now (length added.now) donors.now rows.now }
    ensures { Gathered table.now.slots (map_of table.now).tag store.old size added.now (length added.now)
        donors.now rows.now store.new }
{
    for (a, &node) in added.iter().enumerate() {
        let node = usize::from(node);
        let donor = usize::from(donors[node]);
        note(table, store, size, rows[donor], 2 * table.slots + a * size);
    }
}

// The records of the darts of one node become zeros.
fn erase(slots: usize, table: &mut [u32], store: &[u32], size: usize, base: usize)
    requires sized { Sized slots table.old }
    requires holds_slots { HoldsSlots slots store.now base size }
    ensures { view slots table.new ≡ erased (dart_at store.now base) size (view slots table.old) }
{
    for r in 0..size {
        let x = word(store, base + r);
        blank(slots, table, x);
    }
}

// The records of the darts of deleted nodes become zeros.
fn clear(
    slots: usize,
    table: &mut [u32],
    store: &[u32],
    size: usize,
    kinds: &[u8; 16],
    c: usize,
    rows: &[usize; 16],
)
    requires sized { Sized slots table.old }
    requires deleted_rows { DeletedRows slots store.now size kinds.now c rows.now }
    ensures { view slots table.new ≡ cleared store.now size rows.now
        kinds.now c (view slots table.old) }
{
    for v in 0..c {
        let deleted = kinds[v] == 1;
        if deleted {
            erase(slots, table, store, size, rows[v]);
        }
    }
}

// The tags of the donors, and then the table without the deleted darts.
pub fn prepare(
    slots: usize,
    table: &mut [u32],
    store: &mut [u32],
    size: usize,
    added: &[u8],
    donors: &[u8; 16],
    kinds: &[u8; 16],
    c: usize,
    rows: &[usize; 16],
)
    requires sized { Sized slots table.old }
    requires before_room { BeforeRoom (view slots table.old) store.old size added.now (length added.now) donors.now kinds.now c rows.now }
    ensures { (R : BeforeRoom (view slots table.old) store.old size added.now (length added.now) donors.now
        kinds.now c rows.now)
        → Roomy R.at store.old size rows.now (view slots table.new) store.new }
{
    gather(
        &Table {
            slots,
            words: table,
        },
        store,
        size,
        added,
        donors,
        rows,
    );
    clear(slots, table, store, size, kinds, c, rows);
}
