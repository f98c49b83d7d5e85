// The number of stored keys of an image that the check has accepted.
#![tactic(auto)]

ghost use Rattle.std.specs.Prelude.{◌≡◌, length};
ghost use Rattle.trie.specs.Keys.{listing};
ghost use Rattle.node.specs.Read.{node_table};

use sound::Sound;

// The number of stored keys. In an accepted image each node whose data is not 0 is the node of one
// stored key, so it is the number of these nodes. A loop of its own: by `filter` and `count` the
// call took a tenth more, and missed its goal.
pub fn count(sound: Sound) -> u32
    ensures { result ≡ length (listing (node_table sound.entry.nodes) sound.entry.nodes.head.n
        sound.entry.nodes.head.min sound.entry.nodes.head.max) }
{
    let nodes = sound.nodes;
    let mut sum: u32 = 0;
    for q in 0..nodes.count() {
        if nodes.data(q as u32) != 0 {
            sum += 1;
        }
    }
    sum
}
