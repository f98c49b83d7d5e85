// The way through an image by its counts: the key at a position, and the position of a key. The
// image has been checked and the counts have been compared. At each node the links are read from
// the first letter on, and only the link that leads on is followed.
#![tactic(auto)]

ghost use Rattle.std.specs.Prelude.{◌≡◌, true, ◌+◌, ◌≤◌, ◌<◌, length};
ghost use Rattle.std.proofs.Props.{props};
ghost use Rattle.field.specs.Range.{between};
ghost use Rattle.head.specs.Fields.{head_of};
ghost use Rattle.paper.specs.Accepted.{Accepted};
ghost use Rattle.paper.specs.Calls.{stored_keys};
ghost use Rattle.position.specs.Counts.{RightCounts};
ghost use Rattle.key.specs.Hand.{Ready, letters_of};
ghost use Rattle.ranking.specs.Ranking.{Spotted, ranked_of, ChildCounts, keys_below, Under};
ghost use Rattle.ranking.specs.Ranking.{under_lower, RankFits};

use depths::Spot;
use head::Head;
use key::Key;
use sound::Sound;

// An accepted image and the counts that are right for it: what a jump goes by.
#[derive(Clone, Copy)]
pub struct Counted<'a> {
    pub sound: Sound<'a>,
    pub counts: &'a [u32],
    pub ghost right: { RightCounts sound.nodes.image.now counts.now } by { Prim.hlevel props },
}

impl<'a> Counted<'a> {
    // An image that is accepted, by its own head, and the counts that are right for it.
    pub fn of(image: &'a [u8], head: Head, counts: &'a [u32]) -> Counted<'a>
        requires accepted { Accepted image.now }
        requires own { head ≡ head_of image.now }
        requires right { RightCounts image.now counts.now }
        ensures bytes { result.sound.nodes.image.now ≡ image.now }
        ensures head { result.sound.nodes.head ≡ head }
        ensures counts { result.counts.now ≡ counts.now }
    {
        let sound = Sound::of(image, head);
        Counted { sound, counts }
    }
}

// The child at or under which the key at a position is: its letter, its address, and the key's
// position among the keys at or under it.
#[derive(Drop)]
pub struct Branch {
    pub letter: u8,
    pub child: u32,
    pub left: u32,
}

// The stored key at a position, which is below the number of stored keys. Its letters are then
// the front of the path, a slice of any length that has room: an array would ask for more.
pub fn key_at(counted: Counted, position: u32, path: &mut [u8]) -> Spot
    requires position { position < length (stored_keys counted.sound.nodes.image.now) }
    requires room { counted.sound.nodes.head.max ≤ length path.old }
    ensures { Spotted counted.entry.sound.nodes.image.now position result path.new }
{
    let mut node: u32 = 0;
    let mut depth: usize = 0;
    let mut left = position;
    // It ends only by its return: a `for` over the depths would need an end that is never reached.
    loop {
        let value = depths::own_value(counted.sound.nodes, node, depth);
        if value != 0 {
            if left == 0 {
                return Spot {
                    length: depth,
                    value,
                };
            }
            left -= 1;
        }
        let branch = branch_at(counted, node, depth, left);
        path[depth] = branch.letter;
        node = branch.child;
        left = branch.left;
        depth += 1;
    }
}

// The child of a node at a depth at or under which the key at a position is. The position counts
// the keys below the node, without the node's own key, and there is a key at it. By the letter, as
// wherever a node's links are gone over: its number is what the turn is about.
fn branch_at(counted: Counted, node: u32, depth: usize, position: u32) -> Branch
    requires node { node ≤ counted.sound.nodes.head.g }
    requires depth { depth < counted.sound.nodes.head.max }
    requires child_counts { ChildCounts counted.sound.nodes.head counted.sound.nodes.image.now node
        depth counted.counts.now }
    requires inside { position < length (keys_below counted.sound.nodes.head
        counted.sound.nodes.image.now node depth) }
    ensures { Under counted.entry.sound.nodes.head counted.entry.sound.nodes.image.now node depth
        position result }
{
    let nodes = counted.sound.nodes;
    let mut left = position;
    for i in 0..nodes.head.n {
        let c = nodes.link(node, i);
        if c == 0 {
            continue;
        }
        let under = counted.counts[c as usize];
        if left < under {
            return Branch {
                letter: i as u8,
                child: c,
                left,
            };
        }
        left -= under;
    }
    unreachable!()
}

// The position of a key whose length is allowed, if it is stored: the number of stored keys before
// it. On the way down these are each node's own key and all keys at or under the children of lower
// letters. That the length is allowed stays a clause: a store's stages do not ask it of a key.
pub fn rank(counted: Counted, key: Key) -> Option<u32>
    requires ready { Ready counted.sound.nodes.head key }
    requires allowed { between (length (letters_of key)) counted.sound.nodes.head.min
        counted.sound.nodes.head.max ≡ true }
    ensures { result ≡ ranked_of counted.entry.sound.nodes.image.now (letters_of key) }
{
    let nodes = counted.sound.nodes;
    let mut node: u32 = 0;
    let mut before: u32 = 0;
    for (depth, &letter) in key.letters[..key.len].iter().enumerate() {
        let letter = u32::from(letter);
        let c = nodes.link(node, letter);
        if c == 0 {
            return None;
        }
        if depths::own_value(nodes, node, depth) != 0 {
            before += 1;
        }
        before = passed(counted, node, depth, letter, before);
        node = c;
    }
    if depths::own_value(nodes, node, key.len) == 0 {
        return None;
    }
    Some(before)
}

// Adds to `before` the number of keys at or under the children of a node at a depth, for the
// letters below `letter`.
fn passed(counted: Counted, node: u32, depth: usize, letter: u32, before: u32) -> u32
    requires node { node ≤ counted.sound.nodes.head.g }
    requires depth { depth < counted.sound.nodes.head.max }
    requires letter { letter ≤ counted.sound.nodes.head.n }
    requires child_counts { ChildCounts counted.sound.nodes.head counted.sound.nodes.image.now node
        depth counted.counts.now }
    requires rank_fits { RankFits counted.sound.nodes.head counted.sound.nodes.image.now node depth
        letter before }
    ensures { result ≡ before + under_lower counted.entry.sound.nodes.head
        counted.entry.sound.nodes.image.now node depth letter }
{
    let nodes = counted.sound.nodes;
    let mut sum = before;
    for i in 0..letter {
        let c = nodes.link(node, i);
        if c != 0 {
            sum += counted.counts[c as usize];
        }
    }
    sum
}
