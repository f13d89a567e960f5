// Incidence, and after it the cycles, from the codes of arcs. `left_twice` and `right_twice` say which nodes have two arcs of one dimension on a side.
#![tactic(auto)]

pub mod cycles;

ghost use Rattle.std.specs.Prelude.{◌≡◌, ◌<◌, ◌≤◌, get_or};
ghost use Rattle.base.specs.First.{least};
ghost use Rattle.incidence.specs.Cycles.{Coding};
ghost use Rattle.incidence.specs.Incidence.{paired, incident_by, offends, arcs_fault};

use cycles::cycle_fault;
use model::{Refusal, Scheme};

// Whether a node of this kind may have these codes at a dimension: l on the left and r on the right, 255 for no arc. A second arc there is found
// apart.
#[tactic(auto, unfolding(crate::specs::Incidence::paired))]
fn allowed(kind: u8, l: u8, r: u8) -> bool
    ensures { result ≡ paired kind l r }
{
    match kind {
        1 => l != 255,
        3 => r != 255,
        _ => (l == 255) == (r == 255),
    }
}

// Whether node s has, at every dimension up to n, the arcs that its kind requires. Dimension 3 is tested apart, so that the loop has a fixed number of
// turns; n is read once for all nodes.
fn incident(n: u8, scheme: &Scheme, s: usize) -> bool
    requires { (2 ≤ n) × (n ≤ 3) × (s < 16) }
    ensures { result ≡ incident_by n (get_or scheme.now.kinds s 0) scheme.now.ltargets scheme.now.rtargets s }
{
    let kind = scheme.kinds[s];
    let allows = |i: usize| allowed(kind, scheme.ltargets[4 * s + i], scheme.rtargets[4 * s + i]);
    (0..3).all(allows) && (n < 3 || allows(3))
}

// The least node that breaks incidence: it has two arcs of one dimension on a side, or lacks one that its kind requires.
// A call of its own: inlined with all else that a check of a scheme does, it makes the compiler copy the scheme first.
#[inline(never)]
fn unbalanced(scheme: &Scheme, left_twice: &[bool; 16], right_twice: &[bool; 16]) -> Option<u32>
    requires { (2 ≤ scheme.now.n) × (scheme.now.n ≤ 3) × (scheme.now.nodes ≤ 16) }
    ensures { result ≡ least scheme.now.nodes (offends scheme.now.n scheme.now.kinds
        scheme.now.ltargets scheme.now.rtargets left_twice.now right_twice.now) }
{
    let n = scheme.n;
    (0..u32::from(scheme.nodes)).find(|&s| {
        left_twice[s as usize] || right_twice[s as usize] || !incident(n, scheme, s as usize)
    })
}

// The first fault of the arcs: that of incidence, or else that of the cycles.
pub fn arcs_fault(
    scheme: &Scheme,
    left_twice: &[bool; 16],
    right_twice: &[bool; 16],
) -> Result<(), Refusal>
    requires dimension { (2 ≤ scheme.now.n) × (scheme.now.n ≤ 3) }
    requires few_nodes { scheme.now.nodes ≤ 16 }
    requires coding { Coding scheme.now.nodes scheme.now.ltargets × Coding scheme.now.nodes scheme.now.rtargets }
    ensures { result ≡ arcs_fault scheme.now.n scheme.now.nodes scheme.now.orbit scheme.now.kinds
        scheme.now.ltargets scheme.now.rtargets left_twice.now right_twice.now }
{
    if let Some(node) = unbalanced(scheme, left_twice, right_twice) {
        return Err(Refusal::BadIncidence(node));
    }
    cycle_fault(scheme)
}
