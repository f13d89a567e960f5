// The tests of a scheme that has been read: hook, incidence, cycles, in this order.
#![tactic(auto)]

pub mod arcs;
pub mod hook;
pub mod tree;

ghost use Rattle.std.specs.Prelude.{◌≡◌, length};
ghost use Rattle.model.specs.Answer.{fault_of};
ghost use Rattle.model.specs.Scheme.{left, right};
ghost use Rattle.model.specs.Conditions.{scheme_fault};
ghost use Rattle.model.specs.Twice.{twice_of};
ghost use Rattle.model.specs.Shaped.{Shaped};
ghost use Rattle.conditions.specs.Hook.{hook_by};
ghost use Rattle.conditions.specs.Tree.{TreeOf};
ghost use Rattle.conditions.specs.Verdict.{fault_by};

use hook::hooked;
use incidence::arcs_fault;
use model::{Refusal, Scheme};
use tree::{Tree, reach_of};

// The node that breaks the condition of hooks, if there is one: node 0, else the second hook, else `out`, the least left node that no hook reaches.
#[tactic(auto, unfolding(crate::specs::Hook::hook_by))]
fn hook_fault(scheme: &Scheme, out: Option<u32>) -> Option<u32>
    requires { Shaped scheme.now }
    ensures { result ≡ hook_by scheme.now.places scheme.now.orbit scheme.now.kinds
        scheme.now.lwords scheme.now.second out }
{
    if !hooked(scheme, 0) {
        return Some(0);
    }
    let second = usize::from(scheme.second);
    if second != 0 && !hooked(scheme, second) {
        return Some(second as u32);
    }
    out
}

// The first of refusals 3, 4 and 5 that applies. `out` is the least left node that no hook reaches, if there is one; it has been found already, while
// the trees were grown.
fn fault(
    scheme: &Scheme,
    out: Option<u32>,
    left_twice: &[bool; 16],
    right_twice: &[bool; 16],
) -> Result<(), Refusal>
    requires { Shaped scheme.now }
    ensures { result ≡ fault_by scheme.now.n scheme.now.places scheme.now.nodes scheme.now.orbit
        scheme.now.kinds scheme.now.lwords scheme.now.second out scheme.now.ltargets
        scheme.now.rtargets left_twice.now right_twice.now }
{
    if let Some(node) = hook_fault(scheme, out) {
        return Err(Refusal::BadHook(node));
    }
    arcs_fault(scheme, left_twice, right_twice)
}

// The trees of a scheme's left arcs, also where it is refused, and the first of refusals 3, 4 and 5 that applies to it. `left_twice` and `right_twice`
// say which nodes have two arcs of a dimension on a side. The trees come first in the pair: with the fault first, an edit of a long orbit takes up to 4%
// more instructions.
pub fn judge(
    scheme: &Scheme,
    left_twice: &[bool; 16],
    right_twice: &[bool; 16],
) -> (Tree, Result<(), Refusal>)
    requires shaped { Shaped scheme.now }
    requires words_len { length scheme.now.lwords ≡ 64 }
    requires left_twice_value { left_twice.now ≡ twice_of scheme.now left }
    requires right_twice_value { right_twice.now ≡ twice_of scheme.now right }
    ensures tree { TreeOf scheme.now result.0 }
    ensures fault { result.1 ≡ fault_of (scheme_fault scheme.now) }
{
    let (tree, out) = reach_of(scheme);
    let found = fault(scheme, out, left_twice, right_twice);
    (tree, found)
}
