// Nodes by their number: the two functions through which nearly all others read and write.
ghost use Rattle.std.specs.Prelude.{◌≡◌, slice_set};
ghost use Rattle.nodes.specs.Access.{node_at};

use crate::node::Node;

// The node with this number, if there is one.
pub fn read<K: Copy>(nodes: &[Node<K>], at: usize) -> Option<Node<K>>
    ensures { result ≡ node_at nodes.now at }
{
    nodes.get(at).copied()
}

// Writes a node in the place of the one with this number; a number past the end changes nothing.
// By index: tried by `get_mut`, of whose writes the library says nothing, so the proof did not close.
pub fn put<K: Copy>(nodes: &mut [Node<K>], at: usize, node: Node<K>)
    ensures { nodes.new ≡ slice_set nodes.old at node }
{
    if at < nodes.len() {
        nodes[at] = node;
    }
}
