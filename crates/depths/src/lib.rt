// A node at a depth: the data of the key that ends there, and whether longer keys can lie below
// it. The depth of a node is the length of the key that leads to it. The searches and the counts
// of the crates above read nodes by these functions.
#![tactic(auto)]

ghost use Rattle.std.specs.Prelude.{◌≡◌, ◌≤◌};
ghost use Rattle.node.specs.Read.{node_table};
ghost use Rattle.depths.specs.Depths.{own_value, KeysBelow};

use node::Nodes;

// A stored key on a path: the number of its letters, which are the front of the path, and its
// value. `paper::Found` is what C is given of it, a length of 32 bits; a search counts in `usize`.
#[derive(Clone, Copy)]
pub struct Spot {
    pub length: usize,
    pub value: u64,
}

// The data of a node at a depth; 0 if the depth is below min, since such a key is too short to
// be stored.
pub fn own_value(nodes: Nodes, node: u32, depth: usize) -> u64
    requires { node ≤ nodes.head.g }
    ensures { result ≡ own_value nodes.entry.head (node_table nodes.entry) node depth }
{
    if depth < (nodes.head.min as usize) {
        return 0;
    }
    nodes.data(node)
}

// True only if no stored key lies below a node at a depth: no letter may follow, or all its
// links are empty. Most keys end at such a node, and a search need not go there.
pub fn no_keys_below(nodes: Nodes, node: u32, depth: usize) -> bool
    requires { node ≤ nodes.head.g }
    ensures { KeysBelow nodes.entry.head (node_table nodes.entry) node depth result }
{
    if (nodes.head.max as usize) <= depth {
        return true;
    }
    nodes.childless(node)
}
