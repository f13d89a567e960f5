// The condition of hooks: the test of a hook, and the search for a left node that is not reached.
ghost use Rattle.std.specs.Prelude.{◌≡◌, ◌<◌, ◌≤◌};
ghost use Rattle.base.specs.First.{least};
ghost use Rattle.conditions.specs.Hook.{hooked_by, left_out};

use model::Scheme;

// Whether node h is as a hook must be: not added, with the orbit type as its left word.
#[tactic(auto, unfolding(crate::specs::Hook::hooked_by))]
pub fn hooked(scheme: &Scheme, h: usize) -> bool
    requires { (scheme.now.places ≤ 4) × (h < 16) }
    ensures { result ≡ hooked_by scheme.now.places scheme.now.orbit scheme.now.kinds
        scheme.now.lwords h }
{
    let added = scheme.kinds[h] == 3;
    !added && (0..usize::from(scheme.places)).all(|p| scheme.lwords[4 * h + p] == scheme.orbit[p])
}

// The least left node that is not reached, if there is one.
pub fn unreached(scheme: &Scheme, reached: &[bool; 16]) -> Option<u32>
    requires { scheme.now.nodes ≤ 16 }
    ensures { result ≡ least scheme.now.nodes (left_out scheme.now.kinds reached.now) }
{
    (0..u32::from(scheme.nodes)).find(|&s| scheme.kinds[s as usize] != 3 && !reached[s as usize])
}
