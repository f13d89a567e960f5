// The tests of the left arcs over the whole orbit, save those of the trees.
ghost use Rattle.std.specs.Prelude.{◌≡◌, ℕ, ◌*◌, ◌<◌, ◌≤◌, get_or};
ghost use Rattle.table.specs.Seen.{map_of};
ghost use Rattle.matching.specs.ArcTests.{Testable, follows, explicit_test, arc_test, arcs_test, Firm};

use orbit::store::word;
use table::words::Table;

// The i-links lead from the row at `from` to the row at `base`: from the dart at each place r of the orbit to the one at place to(r).
fn follows<F: Fn(usize) -> usize>(
    table: &Table<'_>,
    store: &[u32],
    size: usize,
    i: usize,
    from: usize,
    base: usize,
    to: F,
) -> bool
    requires testable { Testable table.now.slots store.now size from base }
    requires dimension { i ≤ 3 }
    requires callable { (r : ℕ) → r < size → F.pre to r }
    requires place { (r q : ℕ) → r < size → F.post to r q → q < size }
    ensures { (next : ℕ → ℕ) → ((r q : ℕ) → r < size → F.post to r q → q ≡ next r)
        → result ≡ follows ((map_of table.now).link i) store.now size from base next }
{
    for r in 0..size {
        if table.link(i, word(store, from + r)) != word(store, base + to(r)) {
            return false;
        }
    }
    true
}

// Tests the explicit arc of entry j at dimension i, from the row at `from` to that of node t. Each arc is met twice, once from each end: it is tested
// only from the end whose row was made later. The arc along which the row was made needs no test, for it holds by construction.
fn explicit(
    table: &Table<'_>,
    store: &[u32],
    size: usize,
    dims: &[u8; 16],
    rows: &[usize; 16],
    j: usize,
    i: usize,
    from: usize,
    t: usize,
) -> bool
    requires testable { Testable table.now.slots store.now size from (get_or rows.now t 0) }
    requires entry { j < 16 }
    requires dimension { i ≤ 3 }
    requires target { t < 16 }
    ensures { result ≡ explicit_test (map_of table.now) store.now size dims.now rows.now j i from t }
{
    let to = rows[t];
    from < to || usize::from(dims[j]) == i || follows(table, store, size, i, from, to, |r| r)
}

// The arc of entry j at dimension i, if it has one.
fn arc(
    table: &Table<'_>,
    store: &[u32],
    size: usize,
    nodes: &[u8; 16],
    dims: &[u8; 16],
    roots: usize,
    count: usize,
    codes: &[u8; 64],
    rows: &[usize; 16],
    j: usize,
    i: usize,
) -> bool
    requires firm { Firm table.now.slots store.now size nodes.now codes.now rows.now count }
    requires entry { j < count }
    requires dimension { i < 4 }
    ensures { result ≡ arc_test (map_of table.now) store.now size nodes.now dims.now roots
        codes.now rows.now j i }
{
    let v = usize::from(nodes[j]);
    let code = usize::from(codes[4 * v + i]);
    if code == 255 {
        return true;
    }
    let from = rows[v];
    if code < 16 {
        return explicit(table, store, size, dims, rows, j, i, from, code);
    }
    let of_hook = j < roots;
    if of_hook {
        return true;
    }
    let position = code - 16;
    follows(
        table,
        store,
        size,
        i,
        from,
        from,
        |r| word(store, 4 * table.slots + 4 * r + position),
    )
}

// Every arc of the entries.
pub(crate) fn arcs(
    table: &Table<'_>,
    store: &[u32],
    size: usize,
    nodes: &[u8; 16],
    dims: &[u8; 16],
    roots: usize,
    count: usize,
    codes: &[u8; 64],
    rows: &[usize; 16],
) -> bool
    requires firm { Firm table.now.slots store.now size nodes.now codes.now rows.now count }
    ensures { result ≡ arcs_test (map_of table.now) store.now size nodes.now dims.now roots
        codes.now rows.now (4 * count) }
{
    (0..4 * count).all(|k| {
        arc(
            table,
            store,
            size,
            nodes,
            dims,
            roots,
            count,
            codes,
            rows,
            k / 4,
            k % 4,
        )
    })
}
