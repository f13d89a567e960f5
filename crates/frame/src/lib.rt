// The frame of a scheme's bytes: n, the marks of a second hook and of donors, and the counts. It settles that every section lies within the bytes.
#![tactic(auto)]

pub mod cursor;
pub mod nodes;

ghost use Rattle.std.specs.Prelude.{◌≡◌};
ghost use Rattle.frame.specs.Frame.{HeadOf, FrameOf, MarksOf};

use cursor::Cursor;
use nodes::count_nodes;

// What a first byte says: n, and whether a second hook and donors are named.
#[derive(Clone, Copy)]
pub struct Marks {
    pub n: u8,
    pub hook: bool,
    pub donors: bool,
}

// The frame up to the nodes: what the first byte says, the counts of places and nodes, where the first section begins, and where the left arcs do.
#[derive(Clone, Copy)]
pub struct Opening {
    pub n: u8,
    pub hook: bool,
    pub donors: bool,
    pub places: u8,
    pub nodes: u8,
    pub first: Cursor,
    pub next: Cursor,
}

// The whole frame: what the first byte says, the four counts, and where the first section begins.
#[derive(Clone, Copy)]
pub struct Layout {
    pub n: u8,
    pub hook: bool,
    pub donors: bool,
    pub places: u8,
    pub nodes: u8,
    pub lcount: u8,
    pub rcount: u8,
    pub first: Cursor,
}

// Takes the marks off a first byte, which is n, plus 32 if a second hook is named, plus 16 if donors are.
fn marks_of(start: u8) -> Marks
    ensures { MarksOf start result }
{
    let hook = 32 <= start;
    let rest = if hook { start - 32 } else { start };
    let donors = 16 <= rest;
    let n = if donors { rest - 16 } else { rest };
    Marks { n, hook, donors }
}

fn head(bytes: &[u8]) -> Option<Opening>
    ensures { HeadOf bytes.now result }
{
    let (start, first) = Cursor { at: 0 }.byte(bytes)?;
    let Marks { n, hook, donors } = marks_of(start);
    if n < 2 || 3 < n {
        return None;
    }
    let (places, second) = first.count(bytes, 0, n + 1, 1)?;
    let (nodes, third) = count_nodes(bytes, second, places, donors)?;
    let next = Cursor {
        at: third.at + usize::from(hook),
    };
    Some(Opening {
        n,
        hook,
        donors,
        places,
        nodes,
        first,
        next,
    })
}

// Reads the frame. There is none if n or a count is out of its range, or if the bytes do not end with the right arcs.
pub fn frame(bytes: &[u8]) -> Option<Layout>
    ensures { FrameOf bytes.now result }
{
    let Opening {
        n,
        hook,
        donors,
        places,
        nodes,
        first,
        next,
    } = head(bytes)?;
    let (lcount, second) = next.count(bytes, 0, 64, 3)?;
    let (rcount, third) = second.count(bytes, 0, 64, 3)?;
    let layout = Layout {
        n,
        hook,
        donors,
        places,
        nodes,
        lcount,
        rcount,
        first,
    };
    (third.at == bytes.len()).then_some(layout)
}
