// Which nodes are reached from the root, and at which depth: a search over lent working numbers.
// It takes time linear in the image and does not recurse, since a chain of links may be as long as
// the image. Working number x is 0 while node x has not been met. After that its remainder by
// `MARKS` is the node's mark: the depth and one, at most `DEEPEST`. The nodes that have been met
// and whose links are still to be followed are a stack: the number of each, divided by `MARKS`,
// names the next, and that of the last is G+1.
#![tactic(auto)]

ghost use Rattle.std.specs.Prelude.{◌≡◌, ◌≤◌, ◌+◌, ◌++◌, length, drop, replicate};
ghost use Rattle.trie.specs.Rules.{Within};
ghost use Rattle.head.specs.Fields.{longest_image};
ghost use Rattle.node.specs.Read.{node_table};
ghost use Rattle.reaching.specs.Reaching.{Searched, Spread, deeper_of};

use head::Head;
use node::Nodes;

// The mark of a depth above every key's: 64 letters at most, one more, and one.
pub const DEEPEST: u32 = Head::MAX_MOST + 2;

// Marks are below this.
pub const MARKS: u32 = 128;

// Meets the nodes that are reached from the root, and answers how many there are. The first G+1
// working numbers are 0 before. Afterwards the number of a node is 0 if it is not reached, else it
// has the node's mark. Of the answer the contract says whether it is G+1: exactly then every node
// is reached. Links within G stay a clause: a type for it would wrap `Nodes` once more. So does
// that the image is short: `Nodes` may be of any length. The loop has no range: what is next comes
// off the stack.
pub fn reach(nodes: Nodes, work: &mut [u32]) -> u32
    requires short { length nodes.image.now ≤ longest_image }
    requires within { Within (node_table nodes) nodes.head.g }
    requires room { nodes.head.g + 1 ≤ length work.old }
    requires zeros { work.old ≡ replicate (nodes.head.g + 1) 0
        ++ drop (nodes.head.g + 1) work.old }
    ensures { Searched nodes.entry.head nodes.entry.image.now work.old result work.new }
{
    let count = nodes.head.g + 1;
    work[0] = count * MARKS + 1;
    let mut top = spread(nodes, 0, count, work);
    let mut followed: u32 = 1;
    while top < count {
        let q = top;
        let below = work[q as usize] / MARKS;
        top = spread(nodes, q, below, work);
        followed += 1;
    }
    followed
}

// Puts the children of node q that have not been met on the stack, and answers its new top. An
// empty link is 0, and the root has been met. A node that `childless` finds without links is
// passed over at once.
fn spread(nodes: Nodes, q: u32, top: u32, work: &mut [u32]) -> u32
    requires within { Within (node_table nodes) nodes.head.g }
    requires node { q ≤ nodes.head.g }
    requires stack { top ≤ nodes.head.g + 1 }
    requires short { nodes.head.g + 1 ≤ longest_image }
    requires room { nodes.head.g + 1 ≤ length work.old }
    ensures { Spread nodes.entry.head nodes.entry.image.now q top work.old result work.new }
{
    if nodes.childless(q) {
        return top;
    }
    let mark = deeper(work[q as usize] % MARKS);
    let mut top = top;
    for i in 0..nodes.head.n {
        let c = nodes.link(q, i);
        if work[c as usize] == 0 {
            work[c as usize] = top * MARKS + mark;
            top = c;
        }
    }
    top
}

// The mark of a child, from its parent's.
pub fn deeper(mark: u32) -> u32
    ensures { result ≡ deeper_of mark }
{
    if mark < DEEPEST { mark + 1 } else { DEEPEST }
}
