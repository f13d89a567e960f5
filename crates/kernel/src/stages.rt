// A call behind the test of its sizes: an edit's refusals 2 to 5, then the edit at its darts; a count's refusals 7 and 12, then the count.
ghost use Rattle.std.specs.Prelude.{◌≡◌, ◌⊎◌, ◌*◌, true, false, MatchResult, length};
ghost use Rattle.model.specs.Calls.{first_dart, second_dart};
ghost use Rattle.table.specs.Words.{Sized};
ghost use Rattle.table.specs.Seen.{map_of};
ghost use Rattle.kernel.specs.Stages.{many_by, Staged, CountStaged};

use edit::site::apply_at;
use model::{Answer, Darts, Refusal, Reply};
use scheme::Reading;
use table::words::Table;

// The dart of the first hook.
fn first(darts: Darts) -> usize
    ensures { result ≡ first_dart darts }
{
    match darts {
        Darts::One(dart) => dart as usize,
        Darts::Two { dart, other: _ } => dart as usize,
    }
}

// The dart of the second hook, or of the first where there is none.
fn second(darts: Darts) -> usize
    ensures { result ≡ second_dart darts }
{
    match darts {
        Darts::One(dart) => dart as usize,
        Darts::Two { dart: _, other } => other as usize,
    }
}

// The scheme, whose second hook is `hook`, or 0, has as many hooks as there are darts, or else refusal 2.
fn check_hooks(darts: Darts, hook: u8) -> Result<(), Refusal>
    ensures { MatchResult result (λ _. many_by darts hook ≡ true) (λ f. (f ≡ Refusal.BadForm) × (many_by darts hook ≡ false)) }
{
    match darts {
        Darts::One(_) if hook == 0 => Ok(()),
        Darts::Two { dart: _, other: _ } if hook != 0 => Ok(()),
        _ => Err(Refusal::BadForm),
    }
}

// Refusals 2 to 10, and the edit.
pub(crate) fn staged(
    n: u32,
    slots: usize,
    table: &mut [u32],
    store: &mut [u32],
    bytes: &[u8],
    darts: Darts,
) -> Answer
    requires dimension { (n ≡ 2) ⊎ (n ≡ 3) }
    requires sized { Sized slots table.old }
    requires store_len { length store.old ≡ 16 * slots }
    ensures { Staged n slots table.old bytes.now darts result table.new }
{
    let Some(reading) = scheme::read(bytes) else {
        return Err(Refusal::BadForm);
    };
    let Reading {
        scheme,
        ltwice,
        rtwice,
    } = reading;
    check_hooks(darts, scheme.second)?;
    let (tree, fault) = conditions::judge(&scheme, &ltwice, &rtwice);
    fault?;
    apply_at(
        n,
        slots,
        table,
        store,
        &scheme,
        &tree,
        first(darts),
        second(darts),
    )
}

// Refusals 7 and 12, and the count.
pub(crate) fn counted(n: u32, table: &Table<'_>, store: &mut [u32], out: &mut [u32]) -> Answer
    requires dimension { (n ≡ 2) ⊎ (n ≡ 3) }
    requires store_len { length store.old ≡ 16 * table.now.slots }
    ensures { CountStaged n (map_of table.now) out.old result out.new }
{
    let Some(live) = table::survey(n, table) else {
        return Err(Refusal::BadTable);
    };
    if out.len() < 6 {
        return Err(Refusal::ShortOutput);
    }
    let numbers = count::count(n, table, store, live);
    out[..6].copy_from_slice(&numbers);
    Ok(Reply::Done)
}
