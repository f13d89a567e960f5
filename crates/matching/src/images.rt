// The darts of the left nodes: a row of places for each, along the trees of left arcs.
ghost use Rattle.std.specs.Prelude.{◌≡◌, ◌+◌, ◌*◌, ◌-◌, ◌<◌, ◌≤◌, length, get_or, set, is_some};
ghost use Rattle.model.specs.Map.{max_slots};
ghost use Rattle.table.specs.Seen.{map_of};
ghost use Rattle.orbit.specs.Store.{Taken};
ghost use Rattle.matching.specs.Images.{BeforeMatching, RowLinked, RowMade, RowsMade};

use orbit::store::{push, word};
use table::words::Table;

// Makes a row from the place `end` on: the darts to which the i-links of the row at `from` lead. It answers None where a dart has a place already.
fn row(
    table: &Table<'_>,
    store: &mut [u32],
    i: usize,
    from: usize,
    end: usize,
    size: usize,
) -> Option<()>
    requires taken { Taken table.now.slots store.old end }
    requires dimension { i ≤ 3 }
    requires few_places { size ≤ table.now.slots }
    requires row_before { (table.now.slots ≤ from) × (from + size ≤ table.now.slots + end) }
    requires row_linked { RowLinked table.now.slots ((map_of table.now).link i) store.old from size }
    ensures { RowMade table.now.slots ((map_of table.now).link i) from store.old store.new end size (is_some result) }
{
    for r in 0..size {
        let y = table.link(i, word(store, from + r));
        if word(store, y) != 0 {
            return None;
        }
        push(table.slots, store, end + r, y);
    }
    Some(())
}

// The rows of the hooks begin with the places of the orbit and, where there is a second hook, behind them.
fn begin(slots: usize, size: usize, nodes: &[u8; 16], roots: usize, rows: &mut [usize; 16])
    requires { (slots ≤ max_slots) × (size ≤ slots) × (1 ≤ roots) × (roots ≤ 2) × (get_or nodes.now (roots - 1) 0 < 16) }
    ensures { rows.new ≡ set (set rows.old 0 slots) (get_or nodes.now (roots - 1) 0) (slots + (roots - 1) * size) }
{
    rows[0] = slots;
    let last = roots - 1;
    rows[usize::from(nodes[last])] = slots + last * size;
}

// Makes the rows of all entries of the trees, after those of the hooks, and says in `rows` where they begin. It answers None where two pairs fall on
// one dart.
// The array is lent, since handing it on costs a small edit up to 6% of its instructions.
pub(crate) fn rows(
    table: &Table<'_>,
    store: &mut [u32],
    size: usize,
    nodes: &[u8; 16],
    parents: &[u8; 16],
    dims: &[u8; 16],
    roots: usize,
    count: usize,
    rows: &mut [usize; 16],
) -> Option<()>
    requires rows_len { length rows.old ≡ 16 }
    requires before_matching { BeforeMatching (map_of table.now) store.old size nodes.now parents.now dims.now roots count }
    ensures { RowsMade (map_of table.now) nodes.now parents.now dims.now roots
        store.old store.new rows.new size count (is_some result) }
{
    let slots = table.slots;
    begin(slots, size, nodes, roots, rows);
    let mut end = roots * size;
    for k in roots..count {
        let from = rows[usize::from(parents[k])];
        row(table, store, usize::from(dims[k]), from, end, size)?;
        rows[usize::from(nodes[k])] = slots + end;
        end += size;
    }
    Some(())
}
