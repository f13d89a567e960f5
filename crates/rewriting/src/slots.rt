// The darts of the added pairs. They come by orbit dart and then by node. Each takes the lowest slot that is left of those unused once the deleted darts
// are gone, and the tag of the dart of its donor.
ghost use Rattle.std.specs.Prelude.{◌≡◌, ℕ, ◌+◌, ◌*◌, ◌<◌, ◌≤◌, length};
ghost use Rattle.base.specs.Below.{count_below};
ghost use Rattle.model.specs.Map.{view, max_slots};
ghost use Rattle.table.specs.Words.{Sized};
ghost use Rattle.table.specs.Seen.{map_of};
ghost use Rattle.orbit.specs.At.{site};
ghost use Rattle.rewriting.specs.Slots.{SlotLeft, Lowest, revived, Apart, RowsBegin, Turn, Granting};
ghost use Rattle.rewriting.specs.Slots.{PlacesMarked, block_count, digit_words, NoDigits, Digits, Block, BeforeBlocks, BeforeGiving, Granted};

use orbit::store::{keep, word};
use table::words::{Table, put_link, put_state, put_tag};

// The lowest unused slot from `from` on. Four slots a turn: in a full table this scan is most of what an added dart costs.
fn lowest(table: &Table<'_>, from: usize) -> usize
    requires slot_left { SlotLeft table.now.slots (map_of table.now).state from }
    ensures { Lowest table.now.slots (map_of table.now).state from result }
{
    let mut y = from;
    // no `for`, since the slot that ends it is found in it
    while table.state(y) != 0 {
        if table.state(y + 1) == 0 {
            return y + 1;
        }
        if table.state(y + 2) == 0 {
            return y + 2;
        }
        if table.state(y + 3) == 0 {
            return y + 3;
        }
        y += 4;
    }
    y
}

// Slot y becomes live, with a 3-link to itself and the tag v.
fn revive(slots: usize, table: &mut [u32], y: usize, v: u32)
    requires sized { Sized slots table.old }
    requires slot { y < slots }
    ensures { view slots table.new ≡ revived (view slots table.old) y v }
{
    put_state(slots, table, y, 1);
    put_link(slots, table, 3, y, y as u32);
    put_tag(slots, table, y, v);
}

// Gives slots to the pairs of the orbit dart at place r, one for each added node. It returns the slot past the last that was taken.
// Until a pair has its dart, the same word of the store holds the tag for it, for the donor's slot may be taken already.
fn turn(
    slots: usize,
    table: &mut [u32],
    store: &mut [u32],
    size: usize,
    many: usize,
    r: usize,
    free: usize,
) -> usize
    requires sized { Sized slots table.old }
    requires turn { Turn slots (view slots table.old) store.old size many r free }
    ensures { (T : Turn slots (view slots table.old) store.old size many r free)
        → Granting T.at T.store size (count_below T.dart (site T.at).orbit * many + many) result
        (view slots table.new) store.new }
{
    let mut from = free;
    let mut i = 2 * slots + r;
    for _ in 0..many {
        let y = lowest(
            &Table {
                slots,
                words: table,
            },
            from,
        );
        revive(slots, table, y, store[i]);
        keep(store, i, y);
        from = y + 1;
        i += size;
    }
    from
}

// Says where the rows of the added nodes begin.
fn row_starts(slots: usize, size: usize, added: &[u8], rows: &mut [usize; 16])
    requires apart { Apart slots size added.now (length added.now) }
    requires rows_len { length rows.old ≡ 16 }
    ensures { RowsBegin slots size added.now (length added.now) rows.old rows.new }
{
    for (a, &node) in added.iter().enumerate() {
        rows[usize::from(node)] = 2 * slots + a * size;
    }
}

// How many blocks of 64 slots there are. The last may be shorter.
fn block_count(slots: usize) -> usize
    requires { slots ≤ max_slots }
    ensures { result ≡ block_count slots }
{
    slots.div_ceil(64)
}

// The words of the store for the digits become 0.
fn clear_bits(slots: usize, store: &mut [u32])
    requires few_slots { slots ≤ max_slots }
    requires store_len { length store.old ≡ 16 * slots }
    ensures { NoDigits slots store.old (digit_words slots) store.new }
{
    let start = 8 * slots;
    store[start..start + 2 * block_count(slots)].fill(0);
}

// The darts at the first `size` places as binary digits, 32 slots a word, so that they can be taken ascending.
fn mark_bits(slots: usize, store: &mut [u32], size: usize)
    requires places_marked { PlacesMarked slots store.old size }
    requires no_digits { NoDigits slots store.old (digit_words slots) store.old }
    ensures { Digits slots store.old size store.new }
{
    for r in 0..size {
        let u = word(store, slots + r);
        let at = 8 * slots + u / 32;
        let old = word(store, at);
        keep(store, at, old + (1 << (u % 32)));
    }
}

// The digits of a block, from its two words.
fn pair(low: u32, high: u32) -> u64
    ensures { result ≡ low + high * 4294967296 }
{
    u64::from(low) + (u64::from(high) << 32)
}

// Gives slots to the pairs of the orbit darts of one block, ascending: dart 64 * w + t is one where digit t is set. It returns what `turn` does.
fn block(
    slots: usize,
    table: &mut [u32],
    store: &mut [u32],
    size: usize,
    many: usize,
    w: usize,
    digits: u64,
    free: usize,
) -> usize
    requires sized { Sized slots table.old }
    requires block { Block slots (view slots table.old) store.old size many w digits free }
    ensures { (B : Block slots (view slots table.old) store.old size many w digits free)
        → Granting B.at B.store size (count_below (64 * w + 64) (site B.at).orbit * many) result
        (view slots table.new) store.new }
{
    let mut rest = digits;
    let mut from = free;
    // no `for`, since each turn takes a digit off
    while rest != 0 {
        let t = rest.trailing_zeros() as usize;
        rest -= 1 << t;
        let u = 64 * w + t;
        let r = word(store, u) - 1;
        from = turn(slots, table, store, size, many, r, from);
    }
    from
}

// Gives slots to all added pairs, block by block, where the store has the digits of the orbit.
fn blocks(slots: usize, table: &mut [u32], store: &mut [u32], size: usize, many: usize)
    requires sized { Sized slots table.old }
    requires before_blocks { BeforeBlocks slots (view slots table.old) store.old size many }
    ensures { (R : BeforeBlocks slots (view slots table.old) store.old size many)
        → (f : ℕ) × Granting R.at store.old size (count_below (64 * block_count slots) (site R.at).orbit * many) f
        (view slots table.new) store.new }
{
    let mut free = 0;
    for w in 0..block_count(slots) {
        let at = 8 * slots + 2 * w;
        let digits = pair(store[at], store[at + 1]);
        free = block(slots, table, store, size, many, w, digits, free);
    }
}

// Gives each added pair its dart, in the table and in the store, and enters the rows of the added nodes in `rows`.
pub fn give(
    slots: usize,
    table: &mut [u32],
    store: &mut [u32],
    size: usize,
    added: &[u8],
    rows: &mut [usize; 16],
)
    requires sized { Sized slots table.old }
    requires before_giving { BeforeGiving slots (view slots table.old) store.old size added.now (length added.now) rows.old }
    ensures { (R : BeforeGiving slots (view slots table.old) store.old size added.now (length added.now) rows.old)
        → Granted (site R.at) store.old (view slots table.new) store.new rows.new size }
{
    if added.is_empty() {
        return;
    }
    row_starts(slots, size, added, rows);
    clear_bits(slots, store);
    mark_bits(slots, store, size);
    blocks(slots, table, store, size, added.len());
}
