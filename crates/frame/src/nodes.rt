// The count of the nodes, and the place after the last. If donors are named, an added node is one byte longer: that byte is its donor.
ghost use Rattle.std.specs.Prelude.{◌≡◌, ◌+◌, ◌≤◌, true, length};
ghost use Rattle.model.specs.Bytes.{places_of};
ghost use Rattle.frame.specs.Nodes.{NodeSize, NodeCount, NodePlace, NodesOf, NodesEnd, donor_bytes, PastNode};

use crate::cursor::Cursor;

// How many bytes name the donor of a node of this kind: `donors` if the node is added, else none. `donors` is 1 if donors are named, else 0.
pub fn donor_bytes(donors: u8, kind: u8) -> usize
    ensures { result ≡ donor_bytes donors kind }
{
    if kind == 3 { usize::from(donors) } else { 0 }
}

// Steps over one node of a scheme that names donors, if it fits in the bytes. A node has `size` bytes; an added node is one byte longer. This is a
// branch and not an addition on purpose: the processor predicts the branch and goes on to the next node, where a computed length would make it wait.
fn past_node(bytes: &[u8], from: Cursor, size: usize) -> Option<Cursor>
    requires { (from.at ≤ length bytes.now) × (1 ≤ size) × (size ≤ 9) }
    ensures { PastNode bytes.now size from.at result }
{
    let past = from.at + size;
    if bytes.len() < past {
        return None;
    }
    let (kind, _) = from.take(bytes);
    if kind != 3 {
        return Some(Cursor { at: past });
    }
    if bytes.len() <= past {
        return None;
    }
    Some(Cursor { at: past + 1 })
}

// Steps over the nodes of a scheme that names donors, one by one. The first is at the cursor.
fn past_nodes(bytes: &[u8], from: Cursor, nodes: u8, places: u8) -> Option<Cursor>
    requires node_size { NodeSize bytes.now places true }
    requires node_count { NodeCount bytes.now nodes }
    requires first_node { NodePlace bytes.now 0 from.at }
    ensures { NodesEnd bytes.now result }
{
    let size = 1 + 2 * usize::from(places);
    let mut next = from;
    for _ in 0..nodes {
        next = past_node(bytes, next, size)?;
    }
    Some(next)
}

// Reads the count of the nodes, from 1 to 16, and finds the place after the last. Without donors all nodes are equally long, so the count gives the
// place.
pub(crate) fn count_nodes(
    bytes: &[u8],
    from: Cursor,
    places: u8,
    donors: bool,
) -> Option<(u8, Cursor)>
    requires node_size { NodeSize bytes.now places donors }
    requires at_count { from.at ≡ 2 + places_of bytes.now }
    ensures { NodesOf bytes.now result }
{
    let (nodes, next) = from.count(bytes, 1, 16, 1 + 2 * places)?;
    if !donors {
        return Some((nodes, next));
    }
    let first = Cursor { at: from.at + 1 };
    let end = past_nodes(bytes, first, nodes, places)?;
    Some((nodes, end))
}
