// The test of cycles. It reads an arc by its code: a node, which is below 16, or 16 + a position for an implicit arc, or 255 for none.
ghost use Rattle.std.specs.Prelude.{◌≡◌, ℕ, ◌<◌, ◌≤◌, ◌≢◌, get_or};
ghost use Rattle.model.specs.Codes.{entry};
ghost use Rattle.incidence.specs.Cycles.{far_apart, from_node, from_place, cycle_by, pair_by, Coding, cycles_fault};

use model::{Refusal, Scheme};

// The code of node s at dimension i.
fn code(codes: &[u8; 64], s: usize, i: usize) -> usize
    requires { (s < 16) × (i < 4) }
    ensures { result ≡ entry codes.now s i }
{
    usize::from(codes[4 * s + i])
}

// Whether two dimensions differ by at least 2.
#[tactic(auto, unfolding(crate::specs::Cycles::far_apart))]
fn apart(p: usize, q: usize) -> bool
    requires { (p ≤ 255) × (q ≤ 255) }
    ensures { result ≡ far_apart p q }
{
    p + 2 <= q || q + 2 <= p
}

// Whether node s is on an ij-cycle, if its i-arc leads to a node. That node's j-arc has the code t:
// - t is a node: s is on a cycle if explicit arcs i, j, i, j lead back to it.
// - t is a position: s is on a cycle if its own j-arc has the same code.
// - t is none: s is on no cycle.
#[tactic(auto, unfolding(crate::specs::Cycles::from_node, crate::specs::Cycles::goes_round))]
fn from_node(codes: &[u8; 64], s: usize, i: usize, j: usize, t: usize) -> bool
    requires { (s < 16) × (i < 4) × (j < 4) }
    ensures { result ≡ from_node codes.now s i j t }
{
    if t < 16 {
        let u = code(codes, t, i);
        return u < 16 && code(codes, u, j) == s;
    }
    t != 255 && t == code(codes, s, j)
}

// Whether a node is on an ij-cycle, if its i-arc is implicit, with the code a. Its j-arc has the code b:
// - b is a node: it is on a cycle if the i-arc of b has the code a too.
// - b is a position: it is on a cycle if the orbit type's dimensions at both positions differ by at least 2.
// - b is none: it is on no cycle.
#[tactic(auto, unfolding(crate::specs::Cycles::from_place))]
fn from_place(orbit: &[u8; 4], codes: &[u8; 64], i: usize, a: usize, b: usize) -> bool
    requires i_bound { (i < 4) × (16 ≤ a) × (a < 20) }
    requires b_bound { b ≢ 255 → b < 20 }
    ensures { result ≡ from_place orbit.now codes.now i a b }
{
    if b < 16 {
        return code(codes, b, i) == a;
    }
    b != 255 && apart(usize::from(orbit[a - 16]), usize::from(orbit[b - 16]))
}

// Whether node s is on an ij-cycle.
#[tactic(auto, unfolding(crate::specs::Cycles::cycle_by))]
fn on_cycle(orbit: &[u8; 4], codes: &[u8; 64], s: usize, i: usize, j: usize) -> bool
    requires s_bound { (s < 16) × (i < 4) × (j < 4) }
    requires codes_bound { (k : ℕ) → k < 4 → entry codes.now s k ≢ 255 → entry codes.now s k < 20 }
    ensures { result ≡ cycle_by orbit.now codes.now s i j }
{
    let a = code(codes, s, i);
    if a < 16 {
        return from_node(codes, s, i, j, code(codes, a, j));
    }
    a != 255 && from_place(orbit, codes, i, a, code(codes, s, j))
}

// Whether node s meets the condition of cycles at the pair i, j.
#[tactic(auto, unfolding(crate::specs::Cycles::pair_by))]
fn pair_ok(scheme: &Scheme, s: usize, i: usize, j: usize) -> bool
    requires s_bound { (s < 16) × (i < 4) × (j < 4) }
    requires lefts_bound { (k : ℕ) → k < 4 → entry scheme.now.ltargets s k ≢ 255 → entry scheme.now.ltargets s k < 20 }
    requires rights_bound { (k : ℕ) → k < 4 → entry scheme.now.rtargets s k ≢ 255 → entry scheme.now.rtargets s k < 20 }
    ensures { result ≡ pair_by (get_or scheme.now.kinds s 0) scheme.now.orbit
        scheme.now.ltargets scheme.now.rtargets s i j }
{
    let lefts = &scheme.ltargets;
    let rights = &scheme.rtargets;
    match scheme.kinds[s] {
        1 => true,
        3 => on_cycle(&scheme.orbit, rights, s, i, j),
        _ => {
            if on_cycle(&scheme.orbit, lefts, s, i, j) {
                return on_cycle(&scheme.orbit, rights, s, i, j);
            }
            code(lefts, s, i) == code(rights, s, i) && code(lefts, s, j) == code(rights, s, j)
        }
    }
}

// n as one of two constants, so that the compiler can unroll the loops over pairs.
fn top_of(n: u8) -> usize
    requires { (2 ≤ n) × (n ≤ 3) }
    ensures { result ≡ n }
{
    if n == 2 { 2 } else { 3 }
}

// The first offence: that of the least node that offends, at its first pair i, j with i + 2 ≤ j ≤ n.
pub fn cycle_fault(scheme: &Scheme) -> Result<(), Refusal>
    requires dimension { (2 ≤ scheme.now.n) × (scheme.now.n ≤ 3) }
    requires few_nodes { scheme.now.nodes ≤ 16 }
    requires coding { Coding scheme.now.nodes scheme.now.ltargets × Coding scheme.now.nodes scheme.now.rtargets }
    ensures { result ≡ cycles_fault scheme.now.orbit scheme.now.kinds scheme.now.ltargets
        scheme.now.rtargets scheme.now.n scheme.now.nodes }
{
    let top = top_of(scheme.n);
    let mut found = Ok(());
    'nodes: for s in 0..usize::from(scheme.nodes) {
        for j in 2..top + 1 {
            for i in 0..j - 1 {
                if !pair_ok(scheme, s, i, j) {
                    found = Err(Refusal::BadCycle {
                        node: s as u32,
                        i: i as u32,
                        j: j as u32,
                    });
                    break 'nodes;
                }
            }
        }
    }
    found
}
