// The links of all nodes, counted over lent working numbers, and searches in the numbers. It takes
// time linear in the image. Working number x is 0 while no link that holds the address x has been
// met, then the mark of node x, and `AGAIN` once a second link is met. The mark is right where
// each link leads to a greater address: then a node's parent comes before it. Number 0 is 1, the
// root's mark, while all is plain: each link met leads to a greater address, which stands in no
// other link, and to no hidden data. Else it is 0, and the caller must look closer.
#![tactic(auto)]

ghost use Rattle.std.specs.Prelude.{◌≡◌, true, ◌≤◌, ◌+◌, ◌++◌, length, drop, replicate};
ghost use Rattle.node.specs.Read.{node_table};
ghost use Rattle.tallying.specs.Tallied.{BadFrom, Tallied, AllMet, FoundFrom, hidden_at};
ghost use Rattle.tallying.specs.Tallied.{HiddenFrom};

use node::Nodes;

// The working number of an address that stands in two links or more: above every mark.
pub const AGAIN: u32 = reaching::DEEPEST + 1;

// The lowest node that holds a bad link, if one does. If none does, the working numbers have the
// tally of the addresses 1 to G, and number 0 tells whether all is plain. That there is a number
// for each node stays a clause: the numbers are lent on, to some stages without the nodes.
pub fn first_bad_node(nodes: Nodes, work: &mut [u32]) -> Option<u32>
    requires room { nodes.head.g + 1 ≤ length work.old }
    requires zeros { work.old ≡ replicate (nodes.head.g + 1) 0
        ++ drop (nodes.head.g + 1) work.old }
    ensures { BadFrom nodes.entry.head nodes.entry.image.now work.old result work.new }
{
    work[0] = if hides(nodes, 0, 1) { 0 } else { 1 };
    for q in 0..nodes.count() {
        if !tally(nodes, q as u32, work) {
            return Some(q as u32);
        }
    }
    None
}

// Counts the links of node q in the working numbers and answers true, or stops at its first bad
// link and answers false. A node that `childless` finds without links is passed over at once.
fn tally(nodes: Nodes, q: u32, work: &mut [u32]) -> bool
    requires node { q ≤ nodes.head.g }
    requires room { nodes.head.g + 1 ≤ length work.old }
    ensures { Tallied nodes.entry.head nodes.entry.image.now q work.old result work.new }
{
    if nodes.childless(q) {
        return true;
    }
    let mark = reaching::deeper(work[q as usize]);
    for i in 0..nodes.head.n {
        let c = nodes.link(q, i);
        if c == 0 {
            continue;
        }
        if paper::bad_link(nodes.head.g, c) {
            return false;
        }
        if (c <= q) | hides(nodes, c, mark) {
            work[0] = 0;
        }
        if work[c as usize] == 0 {
            work[c as usize] = mark;
        } else {
            work[c as usize] = AGAIN;
            work[0] = 0;
        }
    }
    true
}

// Has node x hidden data: data that is not 0, where its mark is that of a depth outside min..max?
// By `&`: there is no branch between the two tests.
fn hides(nodes: Nodes, x: u32, mark: u32) -> bool
    requires { x ≤ nodes.head.g }
    ensures { result ≡ hidden_at nodes.entry.head (node_table nodes.entry) x mark }
{
    if (nodes.head.min < mark) & (mark <= nodes.head.max + 1) {
        return false;
    }
    nodes.data(x) != 0
}

// True only if no working number from number 1 on, below `count`, is 0. The loop has no early
// exit, so that it can handle several numbers at once. The answer false promises nothing.
// By index: `&work[1..count]` would need `count` to be 1 or more, which is not required.
pub fn all_met(work: &[u32], count: usize) -> bool
    requires { count ≤ length work.now }
    ensures { result ≡ true → AllMet work.now count }
{
    let mut met = true;
    for x in 1..count {
        met &= work[x] != 0;
    }
    met
}

// The lowest address from 1 on, below `count`, whose working number is v, if there is one.
pub fn first_holding(work: &[u32], count: usize, v: u32) -> Option<usize>
    requires some { 1 ≤ count }
    requires room { count ≤ length work.now }
    ensures { FoundFrom work.now count v result }
{
    work[1..count].iter().position(|x| *x == v).map(|x| x + 1)
}

// The lowest node that has hidden data, by the marks in the working numbers, if there is one.
pub fn first_hidden(nodes: Nodes, work: &[u32]) -> Option<u32>
    requires { nodes.head.g + 1 ≤ length work.now }
    ensures { HiddenFrom nodes.entry.head nodes.entry.image.now work.now result }
{
    for (x, number) in work[..nodes.count()].iter().enumerate() {
        if hides(nodes, x as u32, number % reaching::MARKS) {
            return Some(x as u32);
        }
    }
    None
}

// Sets the first n working numbers to 0.
pub fn clear(work: &mut [u32], n: usize)
    requires { n ≤ length work.old }
    ensures { work.new ≡ replicate n 0 ++ drop n work.old }
{
    work[..n].fill(0);
}
