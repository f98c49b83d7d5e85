// The part of a store with counts after 10: 11, 12, 13, then 5 again if the list has no number
// for a new node; then the writes, and the counts of the nodes on the key's path. The image has
// been checked and the counts have been compared.
#![tactic(auto)]

ghost use Rattle.std.specs.Prelude.{◌≡◌, ◌≢◌, true, ◌+◌, ◌-◌, ◌^◌, ◌≤◌, ◌<◌, pos};
ghost use Rattle.std.specs.Prelude.{length, get_or, set};
ghost use Rattle.field.specs.Range.{between};
ghost use Rattle.trie.specs.Rules.{LinkRules};
ghost use Rattle.head.specs.Fields.{head_of};
ghost use Rattle.node.specs.Read.{node_table};
ghost use Rattle.paper.specs.Accepted.{Accepted};
ghost use Rattle.position.specs.Counts.{RightCounts};
ghost use Rattle.key.specs.Hand.{Ready, letters_of};
ghost use Rattle.tracking.specs.Tracking.{StoresCounted, Whole, gain_of, loss_of, CountsFit};
ghost use Rattle.tracking.specs.Tracking.{Shifted, RangeCleared};

use head::Head;
use key::{Asked, Key};
use node::Nodes;
use paper::Refusal;

// Stores a value under a key, 0 to delete it, and keeps the counts right. Refusals: 11, 12, 13,
// 5 again; they leave image and counts as they were.
pub fn store_counted(
    image: &mut [u8],
    asked: Asked,
    value: u64,
    counts: &mut [u32],
) -> Result<i32, Refusal>
    requires accepted { Accepted image.old }
    requires own { asked.head ≡ head_of image.old }
    requires allowed { between (length (letters_of asked.key)) asked.head.min asked.head.max
        ≡ true }
    requires right { RightCounts image.old counts.old }
    ensures { StoresCounted image.old (letters_of asked.key) value counts.old result image.new
        counts.new }
{
    let h = asked.head;
    let walked = walk::walk(Nodes::of(image, h), asked.key)?;
    let new = storing::new_count(asked, walked, value);
    storing::judge(h, image.len(), new, value)?;
    let last = (h.g as usize) + new;
    if counts.len() <= last {
        return Err(Refusal::TooFewNumbers);
    }
    let change = storing::write_at(image, asked, walked, value);
    clear(counts, (h.g as usize) + 1, last + 1);
    let grown = Head {
        g: last as u32,
        ..h
    };
    carry(Nodes::of(image, grown), asked.key, change, counts);
    Ok(change)
}

// Sets the numbers from `from` to `to` - 1 to 0: they belonged to no node and may hold anything.
// Its contract says what the list of counts then holds, as that of `tallying::clear` does.
fn clear(counts: &mut [u32], from: usize, to: usize)
    requires order { from ≤ to }
    requires room { to ≤ length counts.old }
    ensures { RangeCleared from to counts.old counts.new }
{
    counts[from..to].fill(0);
}

// Adds the change in the number of stored keys to the counts of the nodes on the key's path. From
// here on it is what is gained and what is lost, since a count has no sign.
fn carry(nodes: Nodes, key: Key, change: i32, counts: &mut [u32])
    requires ready { Ready nodes.head key }
    requires rules { LinkRules (node_table nodes) nodes.head.g }
    requires room { nodes.head.g < length counts.old }
    requires whole { change ≢ pos 0 → Whole (node_table nodes) (letters_of key) }
    requires fit { CountsFit (node_table nodes) (letters_of key) (gain_of change) (loss_of change)
        counts.old }
    ensures { Shifted (node_table nodes.entry) (letters_of key) (gain_of change) (loss_of change)
        counts.old counts.new }
{
    match change {
        1 => shift(nodes, key, 1, 0, counts),
        -1 => shift(nodes, key, 0, 1, counts),
        _ => {}
    }
}

// Adds `gain` to the count of each node on the key's path, from the root to the key's own node,
// and takes `loss` from it.
fn shift(nodes: Nodes, key: Key, gain: u32, loss: u32, counts: &mut [u32])
    requires ready { Ready nodes.head key }
    requires rules { LinkRules (node_table nodes) nodes.head.g }
    requires room { nodes.head.g < length counts.old }
    requires whole { Whole (node_table nodes) (letters_of key) }
    requires fit { CountsFit (node_table nodes) (letters_of key) gain loss counts.old }
    ensures { Shifted (node_table nodes.entry) (letters_of key) gain loss counts.old counts.new }
{
    let mut node: u32 = 0;
    for letter in &key.letters[..key.len] {
        let next = nodes.link(node, u32::from(*letter));
        bump(counts, node, gain, loss);
        node = next;
    }
    bump(counts, node, gain, loss);
}

// Adds `gain` to the count of one node, and takes `loss` from it.
fn bump(counts: &mut [u32], node: u32, gain: u32, loss: u32)
    requires inside { node < length counts.old }
    requires over { get_or counts.old node 0 + gain < 2 ^ 32 }
    requires under { loss ≤ get_or counts.old node 0 + gain }
    ensures { counts.new ≡ set counts.old node (get_or counts.old node 0 + gain - loss) }
{
    let i = node as usize;
    counts[i] = counts[i] + gain - loss;
}
