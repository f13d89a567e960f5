// The arcs of one side. They are stored; each is tested, and becomes the target of its ends unless an earlier arc is.
ghost use Rattle.std.specs.Prelude.{◌≡◌, false, ◌+◌, ◌*◌, ◌≤◌, ◌<◌, is_some, IfSome, length, replicate};
ghost use Rattle.base.specs.Filled.{stored};
ghost use Rattle.base.specs.Lists.{list};
ghost use Rattle.model.specs.Codes.{placed_at};
ghost use Rattle.model.specs.Scheme.{arcs_form};
ghost use Rattle.scheme.specs.Words.{side_of};
ghost use Rattle.scheme.specs.Arcs.{ArcsPlaced, ArcsRead, key_of, arc_test};
ghost use Rattle.scheme.specs.Targets.{aimed, crowded, ArcLinked};

use crate::side::Side;
use frame::Layout;
use frame::cursor::{Arc, Cursor};

// Arcs are in the order of their keys.
fn key(arc: Arc) -> u32
    ensures { (result ≡ key_of arc.dim arc.near arc.far) × (result ≤ 16777215) }
{
    u32::from(arc.dim) * 65536 + u32::from(arc.near) * 256 + u32::from(arc.far)
}

// Whether the arc may come next: its key is at least `low`, its dimension is at most n, its ends are nodes with the smaller first, and both may occur
// on the side.
fn arc_fits(n: u8, nodes: u8, kinds: &[u8; 16], side: Side, low: u32, arc: Arc) -> bool
    requires { nodes ≤ 16 }
    ensures { result ≡ arc_test n nodes kinds.now (side_of side) low arc.dim arc.near arc.far }
{
    let Arc { dim, near, far } = arc;
    if key(arc) < low || n < dim || far < near || nodes <= far {
        return false;
    }
    let other = side.barred();
    kinds[usize::from(near)] != other && kinds[usize::from(far)] != other
}

// Enters an arc of dimension d from node s to `to`. It becomes the target unless an explicit arc is there. If any arc is there, explicit or implicit,
// the node now has two.
#[tactic(auto, unfolding(crate::specs::Targets::aimed, crate::specs::Targets::crowded))]
fn aim(targets: &mut [u8; 64], twice: &mut [bool; 16], s: usize, d: usize, to: u8)
    requires { (s < 16) × (d < 4) }
    ensures targets_after { targets.new ≡ aimed targets.old (4 * s + d) to }
    ensures twice_after { twice.new ≡ crowded targets.old twice.old s (4 * s + d) }
{
    let at = 4 * s + d;
    let old = targets[at];
    if old != 255 {
        twice[s] = true;
    }
    if 16 <= old {
        targets[at] = to;
    }
}

// Enters an arc at both ends; a loop has one end.
fn link(targets: &mut [u8; 64], twice: &mut [bool; 16], arc: Arc)
    requires { (arc.dim < 4) × (arc.near < 16) × (arc.far < 16) }
    ensures { ArcLinked arc.dim arc.near arc.far targets.old twice.old targets.new twice.new }
{
    let Arc { dim, near, far } = arc;
    let d = usize::from(dim);
    aim(targets, twice, usize::from(near), d, far);
    if near != far {
        aim(targets, twice, usize::from(far), d, near);
    }
}

// Copies `size` bytes from the cursor on.
fn copy(bytes: &[u8], from: Cursor, size: usize, arcs: &mut [u8; 192])
    requires { (from.at + size ≤ length bytes.now) × (size ≤ 192) }
    ensures { arcs.new ≡ stored arcs.old 0 bytes.now from.at size }
{
    arcs[..size].copy_from_slice(&bytes[from.at..from.at + size]);
}

// Reads the arcs of one side, beginning at their count. They must ascend strictly, so it is enough to compare each with the one before it. It is
// inlined in both of its calls, where the side is known.
#[inline(always)]
pub(crate) fn read_arcs(
    bytes: &[u8],
    l: Layout,
    kinds: &[u8; 16],
    side: Side,
    from: Cursor,
    arcs: &mut [u8; 192],
    targets: &mut [u8; 64],
    twice: &mut [bool; 16],
) -> Option<Cursor>
    requires arcs_placed { ArcsPlaced bytes.now l kinds.now (side_of side) from.at }
    requires arrays_blank { (arcs.old ≡ replicate 192 0) × (targets.old ≡ list 64 (placed_at bytes.now (side_of side))) × (twice.old ≡ replicate 16 false) }
    ensures formed { is_some result ≡ arcs_form bytes.now (side_of side) }
    ensures arcs_read { IfSome result (λ next. ArcsRead bytes.now (side_of side) next.at arcs.new targets.new twice.new) }
{
    let (count, first) = from.take(bytes);
    copy(bytes, first, 3 * usize::from(count), arcs);
    let mut next = first;
    let mut low = 0;
    for _ in 0..count {
        let (arc, after) = next.arc(bytes);
        if !arc_fits(l.n, l.nodes, kinds, side, low, arc) {
            return None;
        }
        low = key(arc) + 1;
        link(targets, twice, arc);
        next = after;
    }
    Some(next)
}
