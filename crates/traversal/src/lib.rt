// The stored keys of an image in order. The caller has checked the image once; no function here
// checks it again. A search leaves the path of the key that it found, letters and nodes. The
// next search starts from it, so that a whole listing is one walk through the image.
#![tactic(auto)]

ghost use Rattle.std.specs.Prelude.{◌≡◌, true, List, ℕ, ◌≤◌, ◌<◌, length, get_or, take};
ghost use Rattle.trie.specs.Rules.{Within};
ghost use Rattle.trie.specs.Beyond.{first_of};
ghost use Rattle.node.specs.Read.{node_table};
ghost use Rattle.key.specs.Hand.{Ready, letters_of};
ghost use Rattle.depths.specs.Depths.{own_value};
ghost use Rattle.traversal.specs.Search.{ahead, coming, PathRoom, Along, PathKept, Followed};
ghost use Rattle.traversal.specs.Search.{next_stored, SearchTells};

use depths::Spot;
use key::Key;
use node::Nodes;
use walk::Position;

// The first stored key at or after the key in hand or, if `after` is true, after it, if there is
// one. Its letters are then the front of `letters`, and the nodes on its path, from the root on,
// are the front of `addresses`.
// Two lent slices, not a struct of arrays: a caller lends what its longest key needs, no more.
// `Within` is a clause: a type for it would wrap `Nodes` again, and each clause would go by it.
pub fn next(
    nodes: Nodes,
    key: Key,
    after: bool,
    letters: &mut [u8],
    addresses: &mut [u32],
) -> Option<Spot>
    requires within { Within (node_table nodes) nodes.head.g }
    requires ready { Ready nodes.head key }
    requires short { key.len ≤ nodes.head.max }
    requires room { PathRoom nodes.head letters.old addresses.old }
    ensures search_tells { SearchTells nodes.entry.head nodes.entry.image.now
        (next_stored nodes.entry.head nodes.entry.image.now after (letters_of key)) result
        letters.new addresses.new }
    ensures path_room { PathRoom nodes.entry.head letters.new addresses.new }
{
    let depth = along(nodes, key, letters, addresses);
    if depth < key.len {
        let from = u32::from(key.letters[depth]) + 1;
        return climb(&nodes, depth, from, letters, addresses);
    }
    if !after {
        let value = depths::own_value(nodes, addresses[depth], depth);
        if value != 0 {
            return Some(Spot {
                length: depth,
                value,
            });
        }
    }
    climb(&nodes, depth, 0, letters, addresses)
}

// The first stored key after the one whose letters are the first `len` of `letters`, with its
// nodes in `addresses`, if there is one; they are then its path. Over a whole listing no link is
// followed twice.
pub fn onward(nodes: Nodes, len: usize, letters: &mut [u8], addresses: &mut [u32]) -> Option<Spot>
    requires within { Within (node_table nodes) nodes.head.g }
    requires short { len ≤ nodes.head.max }
    requires room { PathRoom nodes.head letters.old addresses.old }
    requires along { Along nodes.head nodes.image.now len letters.old addresses.old }
    ensures search_tells { SearchTells nodes.entry.head nodes.entry.image.now
        (next_stored nodes.entry.head nodes.entry.image.now true (take len letters.old))
        result letters.new addresses.new }
    ensures path_room { PathRoom nodes.entry.head letters.new addresses.new }
{
    climb(&nodes, len, 0, letters, addresses)
}

// Begins a listing: answers the value of the empty key. The value 0 is absent, as the format has
// it. From there `onward` with the length 0 goes on.
pub fn start(nodes: Nodes, addresses: &mut [u32]) -> u64
    requires { 0 < length addresses.old }
    ensures value { result ≡ own_value nodes.entry.head (node_table nodes.entry) 0 0 }
    ensures along { (path : List ℕ) → Along nodes.entry.head nodes.entry.image.now 0 path
        addresses.new }
{
    addresses[0] = 0;
    depths::own_value(nodes, 0, 0)
}

// Follows a key from the root, position by position, until it ends or a link is empty, and answers
// how many letters it followed. No link is bad, so a step that leads to no position met an empty
// link.
fn along(nodes: Nodes, key: Key, letters: &mut [u8], addresses: &mut [u32]) -> usize
    requires within { Within (node_table nodes) nodes.head.g }
    requires ready { Ready nodes.head key }
    requires short { key.len ≤ nodes.head.max }
    requires room { PathRoom nodes.head letters.old addresses.old }
    ensures { Followed nodes.entry.head nodes.entry.image.now (letters_of key) letters.new
        addresses.new result }
{
    addresses[0] = 0;
    let mut here = Position { node: 0, depth: 0 };
    for (depth, &letter) in key.letters[..key.len].iter().enumerate() {
        let Some(next) = here.step(nodes, letter).ok().flatten() else {
            return depth;
        };
        letters[depth] = letter;
        addresses[depth + 1] = next.node;
        here = next;
    }
    key.len
}

// The first stored key below the path's end from a letter on, if there is one. If there is none,
// the search goes on from node to node up the path, each time after the letter that was taken
// there. These nodes have a link, so `no_keys_below` is asked only of the path's end, and only
// where the search begins with the first letter. The nodes are lent here and below: handed over by
// value they were copied for each step.
fn climb(
    nodes: &Nodes,
    end: usize,
    first: u32,
    letters: &mut [u8],
    addresses: &mut [u32],
) -> Option<Spot>
    requires within { Within (node_table nodes.now) nodes.now.head.g }
    requires end { end ≤ nodes.now.head.max }
    requires inner { (0 < first → end < nodes.now.head.max) }
    requires room { PathRoom nodes.now.head letters.old addresses.old }
    requires along { Along nodes.now.head nodes.now.image.now end letters.old addresses.old }
    ensures { SearchTells nodes.now.head nodes.now.image.now
        (first_of (coming nodes.now.head nodes.now.image.now letters.old end first))
        result letters.new addresses.new }
{
    if first != 0 || !depths::no_keys_below(*nodes, addresses[end], end) {
        let found = below(nodes, addresses[end], end, first, letters, addresses);
        if found.is_some() {
            return found;
        }
    }
    for depth in (0..end).rev() {
        let from = u32::from(letters[depth]) + 1;
        let found = below(nodes, addresses[depth], depth, from, letters, addresses);
        if found.is_some() {
            return found;
        }
    }
    None
}

// The first stored key below a node at a depth whose next letter is `from` or a later one, if
// there is one. The function calls itself on the children; the depth left to max falls.
fn below(
    nodes: &Nodes,
    node: u32,
    depth: usize,
    from: u32,
    letters: &mut [u8],
    addresses: &mut [u32],
) -> Option<Spot>
    requires within { Within (node_table nodes.now) nodes.now.head.g }
    requires depth { depth < nodes.now.head.max }
    requires room { PathRoom nodes.now.head letters.old addresses.old }
    requires along { (Along nodes.now.head nodes.now.image.now depth letters.old addresses.old)
        × (node ≡ get_or addresses.old depth 0) }
    ensures search_tells { SearchTells nodes.now.head nodes.now.image.now
        (first_of (ahead nodes.now.head nodes.now.image.now letters.old depth node from))
        result letters.new addresses.new }
    ensures path_kept { PathKept depth letters.old addresses.old letters.new addresses.new }
{
    for i in from..nodes.head.n {
        let c = nodes.link(node, i);
        if c == 0 {
            continue;
        }
        letters[depth] = i as u8;
        addresses[depth + 1] = c;
        let value = depths::own_value(*nodes, c, depth + 1);
        if value != 0 {
            return Some(Spot {
                length: depth + 1,
                value,
            });
        }
        if depths::no_keys_below(*nodes, c, depth + 1) {
            continue;
        }
        let deeper = below(nodes, c, depth + 1, 0, letters, addresses);
        if deeper.is_some() {
            return deeper;
        }
    }
    None
}
