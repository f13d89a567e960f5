// The second hook: the byte after the nodes, if the first byte says that one is named.
ghost use Rattle.std.specs.Prelude.{◌≡◌, true, is_some, IfSome};
ghost use Rattle.base.specs.Below.{all_below};
ghost use Rattle.model.specs.Bytes.{node_at, nodes_of, second_of, arcs_at};
ghost use Rattle.model.specs.Scheme.{left, node_form, second_form, scheme_of};
ghost use Rattle.frame.specs.Frame.{LaidOut};

use frame::Layout;
use frame::cursor::Cursor;

// Reads the second hook, if one is named: its number, or 0 if none is named, and the place after it. The cursor is after the nodes.
pub(crate) fn read_second(
    bytes: &[u8],
    l: Layout,
    from: Cursor,
    kinds: &[u8; 16],
) -> Option<(u8, Cursor)>
    requires laid_out { LaidOut bytes.now l }
    requires nodes_formed { all_below (nodes_of bytes.now) (node_form bytes.now) ≡ true }
    requires after_nodes { from.at ≡ node_at bytes.now (nodes_of bytes.now) }
    requires kinds_are { kinds.now ≡ (scheme_of bytes.now).kinds }
    ensures formed { is_some result ≡ second_form bytes.now }
    ensures hook_read { IfSome result (λ r. (r.0 ≡ second_of bytes.now) × (r.1.at ≡ arcs_at bytes.now left)) }
{
    if !l.hook {
        return Some((0, from));
    }
    let (hook, next) = from.take(bytes);
    if hook == 0 || l.nodes <= hook {
        return None;
    }
    (kinds[usize::from(hook)] != 3).then_some((hook, next))
}
