// Counting the cells of a map: one walk over the map for each kind of cell.
#![tactic(auto)]

ghost use Rattle.std.specs.Prelude.{◌≡◌, ◌⊎◌, ◌*◌, ◌<◌, length, get_or};
ghost use Rattle.base.specs.Below.{count_below};
ghost use Rattle.model.specs.Map.{live};
ghost use Rattle.model.specs.WellFormed.{WellFormed};
ghost use Rattle.model.specs.Count.{cells, counts};
ghost use Rattle.table.specs.Seen.{map_of};
ghost use Rattle.orbit.specs.Walk.{BeforeWalking};
ghost use Rattle.count.specs.Fresh.{is_fresh};

use orbit::store::{unmark, word};
use table::words::Table;

// Whether x is a live dart that no walk has reached.
#[tactic(auto, using(base::proofs::TestLaws::joins), unfolding(crate::specs::Fresh::is_fresh, orbit::specs::Store::marked, orbit::specs::Store::mark))]
fn fresh(table: &Table<'_>, store: &[u32], x: usize) -> bool
    requires store_len { length store.now ≡ 16 * table.now.slots }
    requires slot_in_table { x < table.now.slots }
    ensures { result ≡ is_fresh (map_of table.now) store.now x }
{
    word(store, x) == 0 && table.state(x) == 1
}

// Counts the orbits of the dimensions `dims`: it walks each from its smallest dart, and counts the walks. Marks stay from one walk to the next, so that
// no orbit is walked twice. The number of dimensions is a parameter, so that the walks over two, three and four are compiled apart, with no test of it
// at each link.
pub fn orbits<const K: usize>(table: &Table<'_>, dims: [u8; K], store: &mut [u32]) -> u32
    requires before_walking { BeforeWalking (map_of table.now) dims (length dims) }
    requires store_len { length store.old ≡ 16 * table.now.slots }
    ensures { result ≡ cells (map_of table.now) (length dims.entry) (λ p. get_or dims.entry p 0) }
{
    // a copy of its own, which no write to the store can change
    let table = *table;
    unmark(table.slots, store);
    let mut found = 0;
    let mut end = 0;
    for x in 0..table.slots {
        if fresh(&table, store, x) {
            end = orbit::walk(&table, &dims, store, end, x);
            found += 1;
        }
    }
    found
}

// Live darts, vertices, edges, faces, pieces and volumes.
pub type Counts = [u32; 6];

// Counts the cells of a map. `darts` is the number of its live darts, as the table check has counted them. A map with n = 2 has no volumes.
pub fn count(n: u32, table: &Table<'_>, store: &mut [u32], darts: usize) -> Counts
    requires dimension { (n ≡ 2) ⊎ (n ≡ 3) }
    requires well_formed { WellFormed n (map_of table.now) }
    requires darts_value { darts ≡ count_below table.now.slots (live (map_of table.now)) }
    requires store_len { length store.old ≡ 16 * table.now.slots }
    ensures { result ≡ counts n (map_of table.now) }
{
    let darts = darts as u32;
    if n == 2 {
        let vertices = orbits(table, [1, 2], store);
        let edges = orbits(table, [0, 2], store);
        let faces = orbits(table, [0, 1], store);
        let pieces = orbits(table, [0, 1, 2], store);
        [darts, vertices, edges, faces, pieces, 0]
    } else {
        let vertices = orbits(table, [1, 2, 3], store);
        let edges = orbits(table, [0, 2, 3], store);
        let faces = orbits(table, [0, 1, 3], store);
        let pieces = orbits(table, [0, 1, 2, 3], store);
        let volumes = orbits(table, [0, 1, 2], store);
        [darts, vertices, edges, faces, pieces, volumes]
    }
}
