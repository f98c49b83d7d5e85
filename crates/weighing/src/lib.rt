// The counts of an image that has been checked, worked out afresh: how many stored keys lie at
// or under each node. One walk goes down to max letters. At each node it adds the number of keys
// at or under the node to the node's count.
#![tactic(auto)]

ghost use Rattle.std.specs.Prelude.{◌≡◌, ◌+◌, ◌-◌, ◌≤◌, ◌<◌, ◌++◌, length};
ghost use Rattle.std.specs.Prelude.{drop, replicate};
ghost use Rattle.trie.specs.Keys.{own_key, keys_under};
ghost use Rattle.node.specs.Read.{node_table};
ghost use Rattle.position.specs.Calls.{worked};
ghost use Rattle.weighing.specs.Weighing.{Weighed, SumsFit};

use sound::Sound;

// Writes the counts of the nodes 0 to G to the front of a list; the rest keeps what it held.
pub fn weigh(sound: Sound, list: &mut [u32])
    requires { sound.nodes.head.g + 1 ≤ length list.old }
    ensures { list.new ≡ worked sound.entry.nodes.image.now list.old }
{
    tallying::clear(list, sound.nodes.count());
    add_up(sound, list);
}

// The same, for a list whose first G+1 numbers are 0 already.
pub fn add_up(sound: Sound, list: &mut [u32])
    requires room { sound.nodes.head.g + 1 ≤ length list.old }
    requires zeros { list.old ≡ replicate (sound.nodes.head.g + 1) 0
        ++ drop (sound.nodes.head.g + 1) list.old }
    ensures { list.new ≡ worked sound.entry.nodes.image.now list.old }
{
    let nodes = sound.nodes;
    let own = u32::from(depths::own_value(nodes, 0, 0) != 0);
    if depths::no_keys_below(nodes, 0, 0) {
        list[0] = own;
        return;
    }
    weighed(sound, 0, 0, own, list);
}

// Adds the number of stored keys at or under a node at a depth to the node's count, does so for
// every node under it, and answers the number. `own` of these keys are the node's own. The
// function calls itself on the children; the depth left to max falls.
fn weighed(sound: Sound, node: u32, depth: usize, own: u32, list: &mut [u32]) -> u32
    requires inside { node ≤ sound.nodes.head.g }
    requires deep { depth < sound.nodes.head.max }
    requires room { sound.nodes.head.g + 1 ≤ length list.old }
    requires own { own ≡ length (own_key (node_table sound.nodes) (sound.nodes.head.min - depth)
        node) }
    requires fits { SumsFit sound.nodes.head sound.nodes.image.now node depth list.old }
    ensures value { result ≡ length (keys_under (node_table sound.entry.nodes)
        sound.entry.nodes.head.n (sound.entry.nodes.head.min - depth)
        (sound.entry.nodes.head.max - depth) node) }
    ensures weighed { Weighed sound.entry.nodes.head sound.entry.nodes.image.now node depth
        list.old list.new }
{
    let nodes = sound.nodes;
    let mut sum = own;
    for i in 0..nodes.head.n {
        let c = nodes.link(node, i);
        if c == 0 {
            continue;
        }
        let one = u32::from(depths::own_value(nodes, c, depth + 1) != 0);
        if depths::no_keys_below(nodes, c, depth + 1) {
            list[c as usize] += one;
            sum += one;
            continue;
        }
        sum += weighed(sound, c, depth + 1, one, list);
    }
    list[node as usize] += sum;
    sum
}
