// 01: "The descent stands at a node and a depth; each letter gives the next position." The image
// is opened, but need not have been checked, so each link is judged where it is met: the first
// bad one ends the walk, with its refusal: 6 at the node that holds it.
#![tactic(auto)]

ghost use Rattle.std.specs.Prelude.{◌≡◌, ◌≤◌, ◌<◌};
ghost use Rattle.head.specs.Fields.{most_letters};
ghost use Rattle.node.specs.Read.{node_table};
ghost use Rattle.key.specs.Hand.{Ready, letters_of};
ghost use Rattle.walk.specs.Descent.{step_of, walked_from, at_root, looked_in};

use key::Key;
use node::Nodes;
use paper::Refusal;

// Where the descent stands: a node, and how many letters led to it.
#[derive(Clone, Copy)]
pub struct Position {
    pub node: u32,
    pub depth: usize,
}

// Where the letters of a key lead.
#[derive(Clone, Copy)]
pub enum Walked {
    // To the key's own node.
    Complete(u32),
    // To this position, whose link for the next letter is empty.
    Stopped(Position),
}

impl Position {
    // Follows the link for one letter, and answers the next position, none if the link is empty.
    // Refusals: 6, at this node.
    pub fn step(self, nodes: Nodes, letter: u8) -> Result<Option<Position>, Refusal>
        requires node { self.node ≤ nodes.head.g }
        requires letter { letter < nodes.head.n }
        requires depth { self.depth < most_letters }
        ensures { result ≡ step_of nodes.entry.head.g (node_table nodes.entry) self letter }
    {
        let c = nodes.link(self.node, letter as u32);
        if c == 0 {
            return Ok(None);
        }
        if paper::bad_link(nodes.head.g, c) {
            return Err(Refusal::Link(self.node));
        }
        Ok(Some(Position {
            node: c,
            depth: self.depth + 1,
        }))
    }
}

// Walks from the root along a key that has passed 9 and 10. Refusals: 6, at the node that holds
// the first bad link on the key's path.
pub fn walk(nodes: Nodes, key: Key) -> Result<Walked, Refusal>
    requires { Ready nodes.head key }
    ensures { result ≡ walked_from nodes.entry.head.g (node_table nodes.entry) at_root
        (letters_of key) }
{
    let mut here = Position { node: 0, depth: 0 };
    for letter in &key.letters[..key.len] {
        let Ok(step) = here.step(nodes, *letter) else {
            return Err(Refusal::Link(here.node));
        };
        let Some(next) = step else {
            return Ok(Walked::Stopped(here));
        };
        here = next;
    }
    Ok(Walked::Complete(here.node))
}

// The value of a key, 0 for absent. Refusals: 6, the walk's.
pub fn look(nodes: Nodes, key: Key) -> Result<u64, Refusal>
    requires { Ready nodes.head key }
    ensures { result ≡ looked_in nodes.entry.head.g (node_table nodes.entry) (letters_of key) }
{
    Ok(match walk(nodes, key)? {
        Walked::Complete(node) => nodes.data(node),
        Walked::Stopped(_) => 0,
    })
}
