// Walking the orbit of a dart. The darts that are reached take places in turn, and the dart at each place is asked for its links
// in turn, until none is left that was not asked.
#![tactic(auto)]

pub mod store;

ghost use Rattle.std.specs.Prelude.{◌≡◌, ◌*◌, ◌<◌, ◌≤◌, get_or, length};
ghost use Rattle.model.specs.Map.{max_slots};
ghost use Rattle.table.specs.Seen.{map_of};
ghost use Rattle.orbit.specs.Store.{Taken, Walked, place};
ghost use Rattle.orbit.specs.Walk.{BeforeWalking, Followed, Expanded, Begun, OrbitAdded};

use store::{keep, push, word};
use table::words::Table;

// Slot y takes the place `end`, unless it has a place, and the word `at` becomes the place of y. It returns the new end.
fn follow(slots: usize, store: &mut [u32], end: usize, at: usize, y: usize) -> usize
    requires few_slots { slots ≤ max_slots }
    requires taken { Taken slots store.old end }
    requires slot_in_table { y < slots }
    requires word_behind_places { (2 * slots ≤ at) × (at < 16 * slots) }
    ensures { Followed slots store.old end at y store.new result }
{
    let m = word(store, y);
    if m != 0 {
        keep(store, at, m - 1);
        return end;
    }
    push(slots, store, end, y);
    keep(store, at, end);
    end + 1
}

// Follows the links of the dart at place `head`. It returns the new end.
fn expand(table: &Table<'_>, dims: &[u8], store: &mut [u32], head: usize, tail: usize) -> usize
    requires before_walking { BeforeWalking (map_of table.now) dims.now (length dims.now) }
    requires taken { Taken table.now.slots store.old tail }
    requires live_dart_at_head { (head < tail) × ((map_of table.now).state (place table.now.slots store.old head) ≡ 1) }
    ensures { Expanded (map_of table.now) (length dims.now) (λ p. get_or dims.now p 0) head store.old tail store.new result }
{
    let slots = table.slots;
    let x = word(store, slots + head);
    let at = 4 * slots + 4 * head;
    let mut end = tail;
    // four turns, which the compiler writes out, left at the end of the orbit type
    for p in 0..4 {
        let Some(i) = dims.get(p) else {
            return end;
        };
        let y = table.link(usize::from(*i), x);
        end = follow(slots, store, end, at + p, y);
    }
    end
}

// The orbit of d by the links of the dimensions `dims` takes the places from `begin` on. It returns the new end.
pub fn walk(table: &Table<'_>, dims: &[u8], store: &mut [u32], begin: usize, d: usize) -> usize
    requires before_walking { BeforeWalking (map_of table.now) dims.now (length dims.now) }
    requires live_dart { (d < table.now.slots) × ((map_of table.now).state d ≡ 1) }
    requires begun { Begun (map_of table.now) (length dims.now) (λ p. get_or dims.now p 0) store.old begin d }
    ensures orbit_added { OrbitAdded (map_of table.now) (length dims.now) (λ p. get_or dims.now p 0) d store.old store.new result }
    ensures walked { begin ≡ 0 → Walked (map_of table.now) (length dims.now) (λ p. get_or dims.now p 0) d store.new result }
{
    // a copy of its own, which no write to the store can change
    let table = *table;
    push(table.slots, store, begin, d);
    let mut tail = begin + 1;
    let mut head = begin;
    // no `for`, since the turns move the end on
    while head < tail {
        tail = expand(&table, dims, store, head, tail);
        head += 1;
    }
    tail
}
