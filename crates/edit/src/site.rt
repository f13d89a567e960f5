// The site of an edit: whether the table and the darts are fit for an accepted scheme, and then the edit.
ghost use Rattle.std.specs.Prelude.{◌≡◌, ◌⊎◌, ◌*◌, length, false};
ghost use Rattle.model.specs.Map.{view};
ghost use Rattle.model.specs.Scheme.{has_second};
ghost use Rattle.model.specs.Site.{site_at};
ghost use Rattle.model.specs.Calls.{is_dart};
ghost use Rattle.model.specs.Accepted.{Accepted};
ghost use Rattle.table.specs.Words.{Sized};
ghost use Rattle.table.specs.Seen.{map_of};
ghost use Rattle.conditions.specs.Tree.{TreeOf};
ghost use Rattle.edit.specs.Apply.{AppliedAt};

use crate::apply;
use conditions::tree::Tree;
use model::{Answer, Refusal, Scheme};
use table::words::Table;

// x is a live slot.
fn is_dart(table: &Table<'_>, x: usize) -> bool
    ensures { result ≡ is_dart (map_of table.now) x }
{
    x < table.slots && table.state(x) == 1
}

// Refusals 6 to 10, and the edit.
pub fn apply_at(
    n: u32,
    slots: usize,
    table: &mut [u32],
    store: &mut [u32],
    s: &Scheme,
    t: &Tree,
    dart: usize,
    other: usize,
) -> Answer
    requires dimension { (n ≡ 2) ⊎ (n ≡ 3) }
    requires accepted { Accepted s.now }
    requires other_value { has_second s.now ≡ false → other ≡ dart }
    requires tree_of { TreeOf s.now t.now }
    requires sized { Sized slots table.old }
    requires store_len { length store.old ≡ 16 * slots }
    ensures { AppliedAt n (site_at (view slots table.old) s.now dart other) table.old result table.new }
{
    if u32::from(s.n) != n {
        return Err(Refusal::OtherDimension);
    }
    let seen = Table {
        slots,
        words: table,
    };
    let Some(live) = table::survey(n, &seen) else {
        return Err(Refusal::BadTable);
    };
    if !is_dart(&seen, dart) || !is_dart(&seen, other) {
        return Err(Refusal::NoDart);
    }
    apply(slots, table, store, s, t, slots - live, dart, other)
}
