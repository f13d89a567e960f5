// Whether bytes are a file for n and a number of slots, with numbers of W bytes: the frame, and that the slots ascend.
ghost use Rattle.std.specs.Prelude.{◌≡◌, ◌+◌, ◌*◌, ◌≤◌, length};
ghost use Rattle.model.specs.File.{slots_from, tags_from, links_from};
ghost use Rattle.numbers.specs.Places.{Width};
ghost use Rattle.file.specs.Form.{head_ok, counts_ok, framed, rises, slots_ok};

use crate::places::{links_from, size_in, tags_from};
use numbers::Cursor;

// The file is for n and the number of slots.
#[tactic(auto, using(crate::proofs::FormLaws::pairs), unfolding(crate::specs::Form::head_ok))]
fn head<const W: usize>(n: u32, slots: usize, b: &[u8]) -> bool
    requires { Width W × (1 + W ≤ length b.now) }
    ensures { result ≡ head_ok W n slots b.now }
{
    let start = Cursor { at: 0 };
    let (dimension, next) = start.number::<1>(b);
    let (count, _) = next.number::<W>(b);
    dimension == n && count as usize == slots
}

// The tags and the links are as many as the slots.
#[tactic(auto, using(crate::proofs::FormLaws::pairs), unfolding(crate::specs::Form::counts_ok))]
fn counts<const W: usize>(b: &[u8], darts: usize) -> bool
    requires { Width W × (links_from W darts + W ≤ length b.now) }
    ensures { result ≡ counts_ok W b.now darts }
{
    let first = Cursor {
        at: tags_from::<W>(darts),
    };
    let (tags, _) = first.number::<W>(b);
    let second = Cursor {
        at: links_from::<W>(darts),
    };
    let (links, _) = second.number::<W>(b);
    tags as usize == darts && links as usize == darts
}

// How many darts the frame has room for. It is None where the bytes are no frame.
#[tactic(auto, using(crate::proofs::FormLaws::frames))]
pub fn frame<const W: usize>(n: u32, slots: usize, b: &[u8]) -> Option<usize>
    requires { Width W × (n ≤ 3) }
    ensures { result ≡ framed W n slots b.now }
{
    if b.len() < 1 + 4 * W || !head::<W>(n, slots, b) {
        return None;
    }
    let place = Cursor { at: 1 + W };
    let (count, _) = place.number::<W>(b);
    let darts = count as usize;
    if b.len() != size_in::<W>(n, darts) || !counts::<W>(b, darts) {
        return None;
    }
    Some(darts)
}

// Each of the first `pairs` slots is below the one after it. All are compared, since the machine compares many at once where none ends the loop.
#[tactic(auto, using(crate::proofs::FormLaws::rising))]
fn rising<const W: usize>(b: &[u8], pairs: usize) -> bool
    requires { Width W × (slots_from W + W + W + W * pairs ≤ length b.now) }
    ensures { result ≡ rises W b.now pairs }
{
    let mut good = true;
    for k in 0..pairs {
        let place = Cursor {
            at: 1 + 2 * W + W * k,
        };
        let (low, next) = place.number::<W>(b);
        let (high, _) = next.number::<W>(b);
        good &= low < high;
    }
    good
}

// Each slot is below the number of slots, and above the slot before it.
#[tactic(auto, using(crate::proofs::FormLaws::slots))]
pub fn ascending<const W: usize>(slots: usize, b: &[u8], darts: usize) -> bool
    requires { Width W × (tags_from W darts ≤ length b.now) }
    ensures { result ≡ slots_ok W slots b.now darts }
{
    if darts == 0 {
        return true;
    }
    let place = Cursor {
        at: 1 + W + W * darts,
    };
    let (last, _) = place.number::<W>(b);
    (last as usize) < slots && rising::<W>(b, darts - 1)
}
