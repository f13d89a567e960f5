// The three sections of a file as they are written, with numbers of W bytes: a count, and then something of each live dart.
ghost use Rattle.std.specs.Prelude.{◌≡◌, suc, ◌+◌, ◌*◌, ◌≤◌, ◌<◌, length};
ghost use Rattle.base.specs.Digits.{bytes_of};
ghost use Rattle.model.specs.Map.{max_slots};
ghost use Rattle.model.specs.File.{live_darts};
ghost use Rattle.table.specs.Seen.{map_of};
ghost use Rattle.numbers.specs.Places.{Width, Put};
ghost use Rattle.file.specs.Form.{Kind};
ghost use Rattle.file.specs.Sections.{link_bytes, part_bytes, part_size, section_bytes, head_bytes};

use numbers::Cursor;
use table::words::Table;

#[derive(Clone, Copy)]
pub enum Part {
    Slots,
    Tags,
    Links,
}

// αi(x)
fn link<const W: usize>(
    table: &Table<'_>,
    i: usize,
    x: usize,
    out: &mut [u8],
    from: Cursor,
) -> Cursor
    requires width { Width W }
    requires link_in_bounds { (x < table.now.slots) × (i ≤ 3) × (from.at + W ≤ length out.old) }
    ensures { Put out.old from.at (bytes_of W ((map_of table.now).link i x)) out.new result.at }
{
    from.put::<W>(out, table.word(i, x))
}

// α0(x) to αn(x)
#[tactic(auto, using(crate::proofs::SectionLaws::link_rooms))]
fn links<const W: usize>(
    n: u32,
    table: &Table<'_>,
    x: usize,
    out: &mut [u8],
    from: Cursor,
) -> Cursor
    requires kind { Kind W n }
    requires links_in_bounds { (x < table.now.slots) × (from.at + W * (n + 1) ≤ length out.old) }
    ensures { Put out.old from.at (link_bytes W (map_of table.now) x (suc n)) out.new result.at }
{
    let mut at = from;
    for i in 0..3 {
        at = link::<W>(table, i, x, out, at);
    }
    if n == 2 {
        return at;
    }
    link::<W>(table, 3, x, out, at)
}

// What a section has of x.
#[tactic(auto, using(crate::proofs::SectionLaws::part_sizes))]
fn dart<const W: usize>(
    part: Part,
    n: u32,
    table: &Table<'_>,
    x: usize,
    out: &mut [u8],
    from: Cursor,
) -> Cursor
    requires kind { Kind W n }
    requires dart_in_bounds { (x < table.now.slots) × (from.at + part_size W n part ≤ length out.old) }
    ensures { Put out.old from.at (part_bytes W n (map_of table.now) part x) out.new result.at }
{
    match part {
        Part::Slots => from.put::<W>(out, x as u32),
        Part::Tags => from.put::<4>(out, table.tag(x)),
        Part::Links => links::<W>(n, table, x, out, from),
    }
}

// n and the number of slots, at the start of `out`.
pub fn head<const W: usize>(n: u32, slots: usize, out: &mut [u8]) -> Cursor
    requires kind { Kind W n }
    requires head_in_bounds { (slots ≤ max_slots) × (1 + W ≤ length out.old) }
    ensures { Put out.old 0 (head_bytes W n slots) out.new result.at }
{
    let start = Cursor { at: 0 };
    let next = start.put::<1>(out, n);
    next.put::<W>(out, slots as u32)
}

// A section of a map with `live` live darts.
pub fn section<const W: usize>(
    part: Part,
    n: u32,
    table: &Table<'_>,
    live: usize,
    out: &mut [u8],
    from: Cursor,
) -> Cursor
    requires kind { Kind W n }
    requires live_value { live ≡ live_darts (map_of table.now) }
    requires section_in_bounds { from.at + W + part_size W n part * live ≤ length out.old }
    ensures { Put out.old from.at (section_bytes W n (map_of table.now) part) out.new result.at }
{
    let mut at = from.put::<W>(out, live as u32);
    for x in 0..table.slots {
        if table.state(x) == 1 {
            at = dart::<W>(part, n, table, x, out, at);
        }
    }
    at
}
