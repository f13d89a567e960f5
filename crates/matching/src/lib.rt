// The match: the darts of the left nodes, row by row along the trees of left arcs, then the other arcs over the whole orbit.
#![tactic(auto)]

mod arcs;
mod images;
mod retrace;

ghost use Rattle.table.specs.Seen.{map_of};
ghost use Rattle.matching.specs.Assign.{Posed, Answered};

use table::words::Table;

// Looks for the match at the orbit in the store, with the second hook at `other`, along the scheme's trees and by the codes of its left arcs. If there
// is one, it returns where the rows of the left nodes begin.
pub fn assign(
    table: &Table<'_>,
    store: &mut [u32],
    size: usize,
    orbit: &[u8; 4],
    k: usize,
    other: usize,
    nodes: &[u8; 16],
    parents: &[u8; 16],
    dims: &[u8; 16],
    roots: usize,
    count: usize,
    codes: &[u8; 64],
) -> Option<[usize; 16]>
    requires posed { Posed (map_of table.now) store.old size orbit.now k other nodes.now parents.now dims.now roots count codes.now }
    ensures { Answered (map_of table.now) store.old size orbit.now k other
        nodes.now parents.now dims.now roots count codes.now store.new result }
{
    retrace::hang(table, store, size, orbit, k, other, roots)?;
    let mut rows = [0; 16];
    images::rows(
        table, store, size, nodes, parents, dims, roots, count, &mut rows,
    )?;
    arcs::arcs(table, store, size, nodes, dims, roots, count, codes, &rows).then_some(rows)
}
