// The darts of the second hook, one for each place of the orbit. The first is the one that the call names. The others are found by following, from dart
// to dart, the links that the walk followed within the orbit. They are followed in the walk's order, so the places come in turn.
ghost use Rattle.std.specs.Prelude.{◌+◌, ◌<◌, ◌≤◌, is_some};
ghost use Rattle.model.specs.Map.{max_slots};
ghost use Rattle.table.specs.Seen.{map_of};
ghost use Rattle.orbit.specs.Store.{Taken};
ghost use Rattle.orbit.specs.At.{site};
ghost use Rattle.matching.specs.Retrace.{Met, Retracing, Retraced, RetracedAll, BeforeHanging, HungAll};

use orbit::store::{push, word};
use table::words::Table;

// Puts dart y at place q of the row, which has `end` darts. If q is filled, y must be the dart there. If q is the next place, y takes it, and must not
// have one already. It returns the new number of darts, and None where y cannot stand at q.
#[tactic(auto, unfolding(orbit::specs::Store::place, orbit::specs::Store::mark))]
fn meet(
    slots: usize,
    store: &mut [u32],
    size: usize,
    end: usize,
    q: usize,
    y: usize,
) -> Option<usize>
    requires few_slots { slots ≤ max_slots }
    requires taken { Taken slots store.old (size + end) }
    requires slot { y < slots }
    requires place { q ≤ end }
    ensures { Met slots store.old size end q y store.new result }
{
    if q < end {
        if word(store, slots + size + q) != y {
            return None;
        }
        return Some(end);
    }
    if word(store, y) != 0 {
        return None;
    }
    push(slots, store, size + end, y);
    Some(end + 1)
}

// Follows the links of the dart that stands for place `head`. It returns the new end of the row, and None where there is no match.
fn expand(
    table: &Table<'_>,
    store: &mut [u32],
    size: usize,
    dims: &[u8; 4],
    k: usize,
    head: usize,
    tail: usize,
) -> Option<usize>
    requires retracing { Retracing (map_of table.now) store.old size dims.now k head tail }
    ensures { (T : Retracing (map_of table.now) store.old size dims.now k head tail)
        → Retraced (site T.at) store.old store.new size tail (head + 1) result }
{
    let slots = table.slots;
    let x = word(store, slots + size + head);
    let at = 4 * slots + 4 * head;
    let mut end = tail;
    // four turns, which the compiler writes out, left at the end of the orbit type
    for p in 0..4 {
        if p == k {
            return Some(end);
        }
        let y = table.link(usize::from(dims[p]), x);
        let q = word(store, at + p);
        end = meet(slots, store, size, end, q, y)?;
    }
    Some(end)
}

// Follows the links of the darts for all places, in a row that has the first dart. It answers None where there is no match.
fn retrace(
    table: &Table<'_>,
    store: &mut [u32],
    size: usize,
    dims: &[u8; 4],
    k: usize,
    tail: usize,
) -> Option<()>
    requires retracing { Retracing (map_of table.now) store.old size dims.now k 0 tail }
    ensures { (T : Retracing (map_of table.now) store.old size dims.now k 0 tail)
        → RetracedAll (site T.at) store.old store.new size (is_some result) }
{
    let mut end = tail;
    for head in 0..size {
        end = expand(table, store, size, dims, k, head, end)?;
    }
    Some(())
}

// Makes the row of the second hook, if there is one, from the place `size` on. It answers None where there is no match.
pub(crate) fn hang(
    table: &Table<'_>,
    store: &mut [u32],
    size: usize,
    dims: &[u8; 4],
    k: usize,
    other: usize,
    roots: usize,
) -> Option<()>
    requires before_hanging { BeforeHanging (map_of table.now) store.old size dims.now k other roots }
    ensures { HungAll (map_of table.now) store.old store.new size dims.now k other roots (is_some result) }
{
    if roots == 1 {
        return Some(());
    }
    let tail = meet(table.slots, store, size, 0, 0, other)?;
    retrace(table, store, size, dims, k, tail)
}
