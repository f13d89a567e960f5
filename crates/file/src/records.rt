// The records of a file's darts, entered into a table. The file's numbers have W bytes.
ghost use Rattle.std.specs.Prelude.{◌≡◌, ◌+◌, ◌*◌, ◌≤◌, ◌<◌, length, replicate};
ghost use Rattle.model.specs.Map.{table_size, table_of, max_slots};
ghost use Rattle.model.specs.File.{darts_in, slot_in, map_in};
ghost use Rattle.table.specs.Words.{Sized};
ghost use Rattle.file.specs.Form.{Kind};
ghost use Rattle.file.specs.Records.{Formed, LinksOf, link_of, row_of, put_row, put_links};

use crate::places::{links_from, tags_from};
use numbers::Cursor;
use table::words::{put_link, put_state, put_tag};

// The links of x by dimension, from the next numbers. With n = 2 its own slot is the last.
fn read_links<const W: usize>(n: u32, x: u32, b: &[u8], from: Cursor) -> [u32; 4]
    requires kind { Kind W n }
    requires links_in_bounds { from.at + W * (n + 1) ≤ length b.now }
    ensures { LinksOf W n b.now from.at x result }
{
    let (a0, from1) = from.number::<W>(b);
    let (a1, from2) = from1.number::<W>(b);
    let (a2, from3) = from2.number::<W>(b);
    let a3 = if n == 2 { x } else { from3.number::<W>(b).0 };
    [a0, a1, a2, a3]
}

// The links of x become these.
#[tactic(auto, unfolding(crate::specs::Records::put_links))]
fn put_links(slots: usize, table: &mut [u32], x: usize, links: [u32; 4])
    requires sized { Sized slots table.old }
    requires x_lt_slots { x < slots }
    ensures { table.new ≡ put_links table.old x (link_of links) 4 }
{
    for i in 0..4 {
        put_link(slots, table, i, x, links[i]);
    }
}

// The record of the k-th dart of the file. It is read before any word of it is put, so that its words can be moved together.
fn enter<const W: usize>(n: u32, slots: usize, table: &mut [u32], b: &[u8], darts: usize, k: usize)
    requires kind { Kind W n }
    requires sized { Sized slots table.old }
    requires formed { Formed W n slots b.now }
    requires darts_value { (darts ≡ darts_in W b.now) × (k < darts) }
    ensures { table.new ≡ put_row table.old (slot_in W b.now k) (row_of W n b.now k) }
{
    let at = Cursor {
        at: 1 + 2 * W + W * k,
    };
    let (slot, _) = at.number::<W>(b);
    let first = Cursor {
        at: links_from::<W>(darts) + W + W * ((n as usize + 1) * k),
    };
    let links = read_links::<W>(n, slot, b, first);
    let last = Cursor {
        at: tags_from::<W>(darts) + W + 4 * k,
    };
    let (tag, _) = last.number::<4>(b);
    let x = slot as usize;
    put_state(slots, table, x, 1);
    put_links(slots, table, x, links);
    put_tag(slots, table, x, tag);
}

// The darts of a file in its form, entered into a table that is all zero.
pub fn fill<const W: usize>(n: u32, slots: usize, table: &mut [u32], b: &[u8], darts: usize)
    requires kind { Kind W n }
    requires table_of_zeros { (slots ≤ max_slots) × (table.old ≡ replicate (table_size slots) 0) }
    requires formed { Formed W n slots b.now }
    requires darts_value { darts ≡ darts_in W b.now }
    ensures { table.new ≡ table_of (map_in W n slots b.now) }
{
    for k in 0..darts {
        enter::<W>(n, slots, table, b, darts, k);
    }
}
