// The nodes of a kind.
ghost use Rattle.std.specs.Prelude.{◌≤◌};
ghost use Rattle.edit.specs.Nodes.{NodesOf};

// The nodes of a kind in ascending order: the first `size` of `node`.
#[derive(Clone, Copy)]
pub struct Nodes {
    pub size: usize,
    pub node: [u8; 16],
}

pub fn of_kind(nodes: usize, kinds: &[u8; 16], kind: u8) -> Nodes
    requires { nodes ≤ 16 }
    ensures of_kind { NodesOf nodes kinds.now kind result }
    ensures inside { result.size ≤ 16 }
{
    let mut node = [0; 16];
    let mut size = 0;
    for s in 0..nodes {
        if kinds[s] == kind {
            node[size] = s as u8;
            size += 1;
        }
    }
    Nodes { size, node }
}
