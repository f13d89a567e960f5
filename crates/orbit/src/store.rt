// The words of the working store, and the places that slots take in it (specs/Store.antt has the layout).
ghost use Rattle.std.specs.Prelude.{◌≡◌, ◌+◌, ◌^◌, ◌<◌, ◌≤◌, length, get_or, set};
ghost use Rattle.model.specs.Map.{max_slots};
ghost use Rattle.orbit.specs.Store.{Taken, mark};
ghost use Rattle.orbit.specs.Places.{Pushed, unmarked};

// The word at `at`, as a number.
pub fn word(store: &[u32], at: usize) -> usize
    requires { at < length store.now }
    ensures { result ≡ get_or store.now at 0 }
{
    store[at] as usize
}

// The word at `at` becomes v.
pub fn keep(store: &mut [u32], at: usize, v: usize)
    requires { (at < length store.old) × (v < 2 ^ 32) }
    ensures { store.new ≡ set store.old at v }
{
    store[at] = v as u32;
}

// Slot y, which has no place, takes the place `end`, the first that is free.
pub fn push(slots: usize, store: &mut [u32], end: usize, y: usize)
    requires few_slots { slots ≤ max_slots }
    requires taken { Taken slots store.old end }
    requires slot_without_place { (y < slots) × (mark store.old y ≡ 0) }
    ensures { Pushed slots store.old end y store.new }
{
    keep(store, y, end + 1);
    keep(store, slots + end, y);
}

// No slot has a place any more.
#[tactic(auto, unfolding(crate::specs::Places::unmarked))]
pub fn unmark(slots: usize, store: &mut [u32])
    requires { slots ≤ length store.old }
    ensures { store.new ≡ unmarked slots store.old }
{
    base::clear(&mut store[..slots]);
}
