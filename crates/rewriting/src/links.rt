// The new links of preserved and added pairs. Every link from before the edit that is needed stands
// in the store by place, so nothing is read from the table; a link whose arc is on the left side too stands already.
ghost use Rattle.std.specs.Prelude.{◌≡◌, ◌+◌, ◌*◌, ◌-◌, ◌≤◌, ◌<◌, length};
ghost use Rattle.model.specs.Map.{Link, view, table_of};
ghost use Rattle.model.specs.Edit.{edited};
ghost use Rattle.table.specs.Words.{Sized};
ghost use Rattle.table.specs.Writes.{with_field};
ghost use Rattle.orbit.specs.Store.{dart_at};
ghost use Rattle.orbit.specs.At.{site};
ghost use Rattle.rewriting.specs.Links.{place_by, overwritten, followed, relinked, changed, Changed};
ghost use Rattle.rewriting.specs.Links.{Turnable, Legible, Rows, Codes, BeforeRewriting};
ghost use Rattle.rewriting.specs.Darts.{HoldsSlots};

use orbit::store::word;
use table::words::put_link;

// Where the partner of the dart at place r stands in its row. An explicit arc (a code below 16) joins darts of the same orbit dart, so it is r. An
// implicit arc at position p joins the darts of neighbours, so it is the place to which the orbit's link p leads from r.
#[tactic(auto, unfolding(crate::specs::Links::place_by, orbit::specs::Store::next))]
fn place(slots: usize, store: &[u32], code: usize, r: usize) -> usize
    requires { 16 ≤ code → 4 * slots + 4 * r + (code - 16) < length store.now }
    ensures { result ≡ place_by slots store.now code r }
{
    if code < 16 {
        return r;
    }
    word(store, 4 * slots + 4 * r + (code - 16))
}

// Writes the i-links of the darts in the row at `from`: each becomes its partner in the row at `to`.
fn join(
    slots: usize,
    table: &mut [u32],
    store: &[u32],
    size: usize,
    i: usize,
    from: usize,
    to: usize,
    code: usize,
)
    requires sized { Sized slots table.old }
    requires holds_slots { HoldsSlots slots store.now from size }
    requires inside { to + size ≤ length store.now }
    requires dimension { i ≤ 3 }
    requires turnable { 16 ≤ code → Turnable slots store.now size (code - 16) }
    ensures { view slots table.new ≡ with_field (view slots table.old) (Link i) (overwritten (dart_at store.now from)
        (λ r. dart_at store.now to (place_by slots store.now code r)) size ((view slots table.old).link i)) }
{
    for r in 0..size {
        let x = word(store, from + r);
        let q = place(slots, store, code, r);
        put_link(slots, table, i, x, store[to + q]);
    }
}

// Writes the i-links of the darts in the row at `base`, as the code of their arc says.
fn follow(
    slots: usize,
    table: &mut [u32],
    store: &[u32],
    size: usize,
    i: usize,
    base: usize,
    code: usize,
    rows: &[usize; 16],
)
    requires sized { Sized slots table.old }
    requires holds_slots { HoldsSlots slots store.now base size }
    requires legible { Legible slots store.now size rows.now code }
    requires dimension { i ≤ 3 }
    ensures { view slots table.new ≡ with_field (view slots table.old) (Link i)
        (followed slots store.now size rows.now base code ((view slots table.old).link i)) }
{
    if code < 16 {
        join(slots, table, store, size, i, base, rows[code], code);
    } else if code < 255 {
        join(slots, table, store, size, i, base, base, code);
    }
}

// Writes the links of the darts of all pairs, as the codes of the right arcs say.
fn relink(
    slots: usize,
    table: &mut [u32],
    store: &[u32],
    size: usize,
    codes: &[u8; 64],
    c: usize,
    rows: &[usize; 16],
)
    requires sized { Sized slots table.old }
    requires rows { Rows slots store.now size c rows.now }
    requires codes { Codes slots store.now size codes.now c rows.now }
    ensures { view slots table.new ≡ relinked slots store.now size rows.now
        codes.now (4 * c) (view slots table.old) }
{
    for k in 0..4 * c {
        let code = usize::from(codes[k]);
        follow(slots, table, store, size, k % 4, rows[k / 4], code, rows);
    }
}

// The code of an arc of the right side; that of no arc if the left side has the same.
#[tactic(auto, unfolding(crate::specs::Links::changed))]
fn change(before: u8, after: u8) -> u8
    ensures { result ≡ changed before after }
{
    if before == after {
        return 255;
    }
    after
}

// The codes of the right arcs whose links do not stand already.
fn changes(lefts: &[u8; 64], rights: &[u8; 64]) -> [u8; 64]
    ensures { Changed lefts.now rights.now result }
{
    let mut codes = [255; 64];
    for k in 0..64 {
        codes[k] = change(lefts[k], rights[k]);
    }
    codes
}

// The table after the edit, from the table without the deleted darts and with those of the added pairs.
pub fn rewrite(
    slots: usize,
    table: &mut [u32],
    store: &[u32],
    size: usize,
    lefts: &[u8; 64],
    rights: &[u8; 64],
    c: usize,
    rows: &[usize; 16],
)
    requires sized { Sized slots table.old }
    requires before_rewriting { BeforeRewriting slots (view slots table.old) store.now size lefts.now rights.now c rows.now }
    ensures { (R : BeforeRewriting slots (view slots table.old) store.now size lefts.now
        rights.now c rows.now)
        → table.new ≡ table_of (edited (site R.at)) }
{
    let codes = changes(lefts, rights);
    relink(slots, table, store, size, &codes, c, rows);
}
