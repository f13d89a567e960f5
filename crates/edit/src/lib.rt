// Applying an accepted scheme at a dart or two: refusals 9 and 10, and the published rewriting; 6 to 8 before them are in `site`.
#![tactic(auto)]

pub mod nodes;
pub mod site;

ghost use Rattle.std.specs.Prelude.{◌≡◌, ◌*◌, length};
ghost use Rattle.base.specs.Below.{count_below};
ghost use Rattle.model.specs.Map.{view, unused};
ghost use Rattle.model.specs.Site.{site_at, Sound};
ghost use Rattle.table.specs.Words.{Sized};
ghost use Rattle.conditions.specs.Tree.{TreeOf};
ghost use Rattle.orbit.specs.At.{site};
ghost use Rattle.edit.specs.Apply.{Settling, Applied};

use conditions::tree::Tree;
use model::{Answer, Refusal, Reply, Scheme};
use nodes::of_kind;
use table::words::Table;

// The new darts and the new links of a match, where the `room` unused slots and those of the deleted darts are enough.
fn settle(
    slots: usize,
    table: &mut [u32],
    store: &mut [u32],
    c: usize,
    kinds: &[u8; 16],
    donors: &[u8; 16],
    lefts: &[u8; 64],
    rights: &[u8; 64],
    size: usize,
    room: usize,
    rows: &mut [usize; 16],
) -> Answer
    requires sized { Sized slots table.old }
    requires settling { Settling (view slots table.old) store.old c kinds.now donors.now lefts.now rights.now size room rows.old }
    ensures { (P : Settling (view slots table.old) store.old c kinds.now donors.now lefts.now
        rights.now size room rows.old)
        → Applied (site P.at) table.old result table.new }
{
    let gone = of_kind(c, kinds, 1);
    let new = of_kind(c, kinds, 3);
    let added = &new.node[..new.size];
    let many = added.len();
    if room + size * gone.size < size * many {
        return Err(Refusal::NoRoom);
    }
    rewriting::room::prepare(slots, table, store, size, added, donors, kinds, c, rows);
    rewriting::slots::give(slots, table, store, size, added, rows);
    rewriting::links::rewrite(slots, table, store, size, lefts, rights, c, rows);
    Ok(Reply::Edited {
        orbit: size as u32,
        added: (size * many) as u32,
        deleted: (size * gone.size) as u32,
    })
}

// Applies s, whose left arcs have the trees t, at the dart d, and its second hook at `other`, of a table with `room` unused slots.
pub fn apply(
    slots: usize,
    table: &mut [u32],
    store: &mut [u32],
    s: &Scheme,
    t: &Tree,
    room: usize,
    d: usize,
    other: usize,
) -> Answer
    requires sized { Sized slots table.old }
    requires sound { Sound (site_at (view slots table.old) s.now d other) }
    requires tree_of { TreeOf s.now t.now }
    requires room_value { room ≡ count_below slots (unused (view slots table.old)) }
    requires store_len { length store.old ≡ 16 * slots }
    ensures { Applied (site_at (view slots table.old) s.now d other) table.old result table.new }
{
    orbit::store::unmark(slots, store);
    let k = usize::from(s.places);
    let seen = Table {
        slots,
        words: table,
    };
    let size = orbit::walk(&seen, &s.orbit[..k], store, 0, d);
    let Some(mut rows) = matching::assign(
        &seen,
        store,
        size,
        &s.orbit,
        k,
        other,
        &t.node,
        &t.parent,
        &t.dim,
        t.roots,
        t.size,
        &s.ltargets,
    ) else {
        return Err(Refusal::NoMatch);
    };
    let c = usize::from(s.nodes);
    settle(
        slots,
        table,
        store,
        c,
        &s.kinds,
        &s.donors,
        &s.ltargets,
        &s.rtargets,
        size,
        room,
        &mut rows,
    )
}
