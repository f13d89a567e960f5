// What a program in C links: each call of the kernel, with its answer as one word (include/gmap.h).
#![tactic(auto)]

ghost use Rattle.std.specs.Prelude.{[]};
ghost use Rattle.model.specs.Sequence.{table_check, scheme_check, edit, count as counting, load as loading, write as writing};
ghost use Rattle.demands.specs.Promises.{lending, nothing};
ghost use Rattle.exports.specs.Exports.{Packed};

use kernel::{check_scheme, check_table, count, edit_at, load, write};
use model::Darts;
use word::pack;

#[unsafe(no_mangle)]
pub extern "C" fn gmap_check_table(n: u32, slots: u32, table: &[u32]) -> u64
    ensures { Packed n slots table.now table_check nothing result table.now nothing }
{
    pack(check_table(n, slots, table))
}

#[unsafe(no_mangle)]
pub extern "C" fn gmap_check_scheme(scheme: &[u8]) -> u64
    ensures { Packed 0 0 [] (scheme_check scheme.now) nothing result [] nothing }
{
    pack(check_scheme(scheme))
}

// The word of an edit's answer, for both exports: C has a function for one dart and one for two.
fn packed_edit(
    n: u32,
    slots: u32,
    table: &mut [u32],
    store: &mut [u32],
    scheme: &[u8],
    darts: Darts,
) -> u64
    ensures { Packed n slots table.old (edit scheme.now darts) (lending store.old []) result
        table.new (lending store.new []) }
{
    pack(edit_at(n, slots, table, store, scheme, darts))
}

#[unsafe(no_mangle)]
pub extern "C" fn gmap_edit(
    n: u32,
    slots: u32,
    table: &mut [u32],
    store: &mut [u32],
    scheme: &[u8],
    dart: u32,
) -> u64
    ensures { Packed n slots table.old (edit scheme.now (Darts.One dart)) (lending store.old []) result
        table.new (lending store.new []) }
{
    packed_edit(n, slots, table, store, scheme, Darts::One(dart))
}

#[unsafe(no_mangle)]
pub extern "C" fn gmap_edit2(
    n: u32,
    slots: u32,
    table: &mut [u32],
    store: &mut [u32],
    scheme: &[u8],
    dart: u32,
    other: u32,
) -> u64
    ensures { Packed n slots table.old (edit scheme.now (Darts.Two dart other)) (lending store.old []) result
        table.new (lending store.new []) }
{
    packed_edit(n, slots, table, store, scheme, Darts::Two { dart, other })
}

#[unsafe(no_mangle)]
pub extern "C" fn gmap_count(
    n: u32,
    slots: u32,
    table: &[u32],
    store: &mut [u32],
    out: &mut [u32],
) -> u64
    ensures { Packed n slots table.now counting (lending store.old out.old) result
        table.now (lending store.new out.new) }
{
    pack(count(n, slots, table, store, out))
}

#[unsafe(no_mangle)]
pub extern "C" fn gmap_load(n: u32, slots: u32, table: &mut [u32], file: &[u8]) -> u64
    ensures { Packed n slots table.old (loading file.now) nothing result table.new nothing }
{
    pack(load(n, slots, table, file))
}

#[unsafe(no_mangle)]
pub extern "C" fn gmap_write(n: u32, slots: u32, table: &[u32], out: &mut [u8]) -> u64
    ensures { Packed n slots table.now writing (lending [] out.old) result
        table.now (lending [] out.new) }
{
    pack(write(n, slots, table, out))
}
