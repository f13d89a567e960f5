// The trees of left arcs that reach from the hooks, node 0 and the second hook.
ghost use Rattle.std.specs.Prelude.{◌≡◌, ℕ, ◌<◌, ◌≤◌, List};
ghost use Rattle.base.specs.First.{least};
ghost use Rattle.conditions.specs.Arcs.{Joining};
ghost use Rattle.conditions.specs.Tree.{ByTarget, roots_of, TreeBy, Reaching, Aimed, Lefts, Spans, with_entry, TreeJoined, TreeGrown, Spanning};
ghost use Rattle.conditions.specs.Hook.{left_out};

use crate::arcs::part;
use crate::hook::unreached;
use model::Scheme;

// A spanning forest of the left nodes that the hooks reach, one tree for each hook. It has `size` entries, and entry k is the node `node[k]`. Entries
// 0 to `roots - 1` are the hooks (node 0, then the second hook if there is one) and have no parent: their `dim` is 255. Every other entry was reached
// from the node `parent[k]`, which comes earlier, by a left arc of dimension `dim[k]`. `reached[s]` says whether node s is an entry.
#[derive(Clone, Copy)]
pub struct Tree {
    pub size: usize,
    pub roots: usize,
    pub node: [u8; 16],
    pub parent: [u8; 16],
    pub dim: [u8; 16],
    pub reached: [bool; 16],
}

impl Tree {
    // The hooks alone. `second` is the second hook, or 0 if there is none.
    fn hooks(second: usize) -> Tree
        requires { second < 16 }
        ensures { (targets : List ℕ) → TreeBy (ByTarget targets) second result }
    {
        let roots = if second == 0 { 1 } else { 2 };
        let mut node = [0; 16];
        node[roots - 1] = second as u8;
        let mut reached = [false; 16];
        reached[0] = true;
        reached[second] = true;
        Tree {
            size: roots,
            roots,
            node,
            parent: [0; 16],
            dim: [255; 16],
            reached,
        }
    }

    // Makes node `to` an entry. An arc of dimension i joins it to its parent `from`.
    fn push(&mut self, i: usize, from: usize, to: usize)
        requires { (self.old.size < 16) × (i < 4) × (from < 16) × (to < 16) }
        ensures { self.new ≡ with_entry i from to self.old }
    {
        let k = self.size;
        self.node[k] = to as u8;
        self.parent[k] = from as u8;
        self.dim[k] = i as u8;
        self.reached[to] = true;
        self.size = k + 1;
    }

    // If just one end of left arc a is reached, makes the other an entry.
    fn join(&mut self, scheme: &Scheme, a: usize)
        requires joining { Joining scheme.now.larcs scheme.now.lcount }
        requires a_lt_count { a < scheme.now.lcount }
        requires spans { Spans scheme.now.larcs scheme.now.lcount scheme.now.second self.old }
        ensures { TreeJoined scheme.now.larcs scheme.now.lcount a scheme.now.second self.old self.new }
    {
        let i = part(&scheme.larcs, a, 0);
        let s = part(&scheme.larcs, a, 1);
        let t = part(&scheme.larcs, a, 2);
        if self.reached[s] {
            if !self.reached[t] {
                self.push(i, s, t);
            }
        } else if self.reached[t] {
            self.push(i, t, s);
        }
    }

    // Passes over the left arcs once.
    fn grow(&mut self, scheme: &Scheme)
        requires joining { Joining scheme.now.larcs scheme.now.lcount }
        requires spans { Spans scheme.now.larcs scheme.now.lcount scheme.now.second self.old }
        ensures { TreeGrown scheme.now.larcs scheme.now.lcount scheme.now.lcount scheme.now.second self.old.size self.new }
    {
        for a in 0..usize::from(scheme.lcount) {
            self.join(scheme, a);
        }
    }

    // If the left target of node s at dimension i is a node that is not reached, makes it an entry.
    fn meet(&mut self, scheme: &Scheme, s: usize, i: usize)
        requires s_bound { (s < 16) × (i < 4) }
        requires reaching { Reaching scheme.now.ltargets scheme.now.second self.old s }
        ensures { Reaching scheme.now.ltargets scheme.now.second self.new s }
    {
        let t = usize::from(scheme.ltargets[4 * s + i]);
        if t < 16 && !self.reached[t] {
            self.push(i, s, t);
        }
    }

    // Makes the left targets of node s entries.
    fn spread(&mut self, scheme: &Scheme, s: usize)
        requires s_bound { s < 16 }
        requires reaching { Reaching scheme.now.ltargets scheme.now.second self.old s }
        ensures { Reaching scheme.now.ltargets scheme.now.second self.new s }
    {
        for i in 0..4 {
            self.meet(scheme, s, i);
        }
    }

    // Grows the trees over left targets.
    fn walk(&mut self, scheme: &Scheme)
        requires { TreeBy (ByTarget scheme.now.ltargets) scheme.now.second self.old }
        ensures { TreeBy (ByTarget scheme.now.ltargets) scheme.now.second self.new }
    {
        let mut k = 0;
        // no `for`, since the turns add entries
        while k < self.size {
            self.spread(scheme, usize::from(self.node[k]));
            k += 1;
        }
    }

    // Passes over the left arcs until a pass adds nothing.
    fn pass(&mut self, scheme: &Scheme)
        requires joining { Joining scheme.now.larcs scheme.now.lcount }
        requires spans { Spans scheme.now.larcs scheme.now.lcount scheme.now.second self.old }
        ensures { Spanning scheme.now.larcs scheme.now.lcount scheme.now.second self.new }
    {
        let mut last = 0;
        // no `for`, since it goes on until a pass adds nothing
        while last < self.size {
            last = self.size;
            self.grow(scheme);
        }
    }
}

// Grows the trees of the left arcs, and finds the least left node that they leave out, if there is one. It follows targets first: a target that is a
// node is the far end of the first arc of its dimension. So this walk leaves a left node out only if a second arc alone reaches it, or none. Only
// then are the arcs passed over.
// A call of its own, as `incidence::unbalanced` is, so that the compiler does not copy the scheme first.
#[inline(never)]
pub fn reach_of(scheme: &Scheme) -> (Tree, Option<u32>)
    requires nodes_bound { (scheme.now.nodes ≤ 16) × (scheme.now.second < 16) }
    requires joining { Joining scheme.now.larcs scheme.now.lcount }
    requires aimed { Aimed scheme.now.ltargets scheme.now.larcs scheme.now.lcount }
    requires lefts { Lefts scheme.now.nodes scheme.now.kinds scheme.now.larcs scheme.now.lcount }
    ensures spanning { Spanning scheme.now.larcs scheme.now.lcount scheme.now.second result.0 }
    ensures roots_value { result.0.roots ≡ roots_of scheme.now.second }
    ensures out_value { result.1 ≡ least scheme.now.nodes (left_out scheme.now.kinds result.0.reached) }
{
    let mut tree = Tree::hooks(usize::from(scheme.second));
    tree.walk(scheme);
    let mut out = unreached(scheme, &tree.reached);
    if out.is_some() {
        tree.pass(scheme);
        out = unreached(scheme, &tree.reached);
    }
    (tree, out)
}
