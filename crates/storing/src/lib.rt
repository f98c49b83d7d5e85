// The part of a store after 10, on an image that has been checked, in two stages. First 11, 12
// and 13 are judged. Then the store writes: the new nodes by rising address, G, and the link to
// the first new node; or, if the path is complete, the data field alone. That the image is open
// stays a clause, as in `node` where it is written: a struct with the image by `&mut` would have
// to hold the fact at each write, and the writes of a store come before G.
#![tactic(auto)]

ghost use Rattle.std.specs.Prelude.{◌≡◌, suc, ◌+◌, ◌-◌, ◌≤◌, ◌<◌, ◌^◌, true, [], ◌∷◌};
ghost use Rattle.std.specs.Prelude.{length, drop};
ghost use Rattle.trie.specs.Table.{missing, value_at};
ghost use Rattle.trie.specs.Storing.{added, change_of};
ghost use Rattle.head.specs.Fields.{head_of, most_letters, permitted};
ghost use Rattle.node.specs.Image.{Open, table_of};
ghost use Rattle.node.specs.Writes.{carried_out, new_nodes, data_write, store_writes};
ghost use Rattle.paper.specs.Hearing.{first, outcome};
ghost use Rattle.paper.specs.Answers.{row_of, stored_of};
ghost use Rattle.paper.specs.Orders.{adding_rows};
ghost use Rattle.paper.specs.Accepted.{Accepted};
ghost use Rattle.key.specs.Hand.{letters_of};
ghost use Rattle.storing.specs.StoreStage.{store_at, StoresIn, Stop, stopped_at, end_of, Ends};
ghost use Rattle.storing.specs.StoreStage.{Unrefused, Space, Builds};

use head::Head;
use key::Asked;
use node::Nodes;
use paper::Refusal;
use walk::{Position, Walked};

// Stores a value under a key; 0 deletes the key. Refusals: 11, 12, 13. An accepted image has no
// bad link, so the walk is not refused.
pub fn store(image: &mut [u8], asked: Asked, value: u64) -> Result<i32, Refusal>
    requires accepted { Accepted image.old }
    requires own { asked.head ≡ head_of image.old }
    ensures { StoresIn image.old (letters_of asked.key) value result image.new }
{
    let walked = walk::walk(Nodes::of(image, asked.head), asked.key)?;
    store_at(image, asked, walked, value)
}

// Judges 11, 12 and 13 and carries out the writes, given how the key's walk ended. Refusals: 11,
// 12, 13. How the walk ended stays a clause here and below: it is of this one store.
pub fn store_at(image: &mut [u8], asked: Asked, walked: Walked, value: u64) -> Result<i32, Refusal>
    requires open { Open asked.head image.old }
    requires ends { Ends asked.head asked.key walked }
    ensures { outcome (stored_of result) (image.new ∷ []) ≡ store_at asked.head image.old
        (end_of (letters_of asked.key) walked) value }
{
    judge(
        asked.head,
        image.len(),
        new_count(asked, walked, value),
        value,
    )?;
    Ok(write_at(image, asked, walked, value))
}

// The number of nodes that a store adds: one for each letter left where the walk stopped, none
// for the value 0.
pub fn new_count(asked: Asked, walked: Walked, value: u64) -> usize
    requires ends { Ends asked.head asked.key walked }
    ensures added { result ≡ added (missing (end_of (letters_of asked.key) walked)) value }
    ensures few { result ≤ most_letters }
{
    match walked {
        Walked::Stopped(at) if value != 0 => asked.key.len - at.depth,
        _ => 0,
    }
}

// 11, 12, 13 of a store that adds `new` nodes to an image of `len` bytes. 12 and 13 judge all
// the new nodes together, in 64 bits.
pub fn judge(h: Head, len: usize, new: usize, value: u64) -> Result<(), Refusal>
    requires permitted { permitted h ≡ true }
    requires few { new ≤ most_letters }
    ensures { row_of result ≡ first (adding_rows h value new len) }
{
    if node::greatest(h) < value {
        return Err(Refusal::ValueTooGreat);
    }
    if new == 0 {
        return Ok(());
    }
    let total = (h.g as u64) + (new as u64);
    if (node::mask(h) as u64) < total {
        return Err(Refusal::NoAddress);
    }
    let grown = Head {
        g: total as u32,
        ..h
    };
    if !grown.fits(len) {
        return Err(Refusal::NoRoom);
    }
    Ok(())
}

// Carries out the writes of a store that 11, 12 and 13 have passed, given how the key's walk
// ended. Answers the change in the number of stored keys.
pub fn write_at(image: &mut [u8], asked: Asked, walked: Walked, value: u64) -> i32
    requires open { Open asked.head image.old }
    requires ends { Ends asked.head asked.key walked }
    requires unrefused { Unrefused asked.head (length image.old)
        (end_of (letters_of asked.key) walked) value }
    ensures image_after { image.new ≡ carried_out image.old
        (store_writes asked.head (end_of (letters_of asked.key) walked) value) }
    ensures value { result ≡ change_of
        (value_at (table_of asked.head image.old) (end_of (letters_of asked.key) walked)) value }
{
    match walked {
        Walked::Complete(node) => replace(image, asked.head, node, value),
        Walked::Stopped(at) => extend(image, asked, at, value),
    }
}

// The path is complete: writes the data field of the key's own node, and nothing else. Where the
// value is there already, nothing is left to write; the test also keeps the read of the data
// before the write, so that the compiler makes one load of it.
fn replace(image: &mut [u8], h: Head, node: u32, value: u64) -> i32
    requires open { Open h image.old }
    requires node { node ≤ h.g }
    requires fits { value < 256 ^ h.d }
    ensures image_after { image.new ≡ carried_out image.old
        (data_write h node value ∷ []) }
    ensures value { result ≡ change_of ((table_of h image.old).value node) value }
{
    let old = Nodes::of(image, h).data(node);
    if old == value {
        return 0;
    }
    node::set_data(image, h, node, value);
    change(old, value)
}

// The change in the number of stored keys when one key's data changes.
fn change(old: u64, new: u64) -> i32
    ensures { result ≡ change_of old new }
{
    match (old, new) {
        (0, 0) => 0,
        (0, _) => 1,
        (_, 0) => -1,
        (_, _) => 0,
    }
}

// The path is incomplete: builds a node for each letter left, but none for the value 0.
fn extend(image: &mut [u8], asked: Asked, at: Position, value: u64) -> i32
    requires open { Open asked.head image.old }
    requires stop { Stop asked.head asked.key at }
    requires unrefused { Unrefused asked.head (length image.old)
        (stopped_at at.node (drop at.depth (letters_of asked.key))) value }
    ensures image_after { image.new ≡ carried_out image.old
        (store_writes asked.head (stopped_at at.node (drop at.depth (letters_of asked.key)))
        value) }
    ensures value { result ≡ change_of 0 value }
{
    if value != 0 {
        build(
            image,
            asked,
            at,
            asked.head.g + ((asked.key.len - at.depth) as u32),
            value,
        );
    }
    change(0, value)
}

// The writes of a new path, in the order of 02, Ask 1: the new nodes, then G, then the link that
// the walk found empty.
fn build(image: &mut [u8], asked: Asked, at: Position, total: u32, value: u64)
    requires open { Open asked.head image.old }
    requires stop { Stop asked.head asked.key at }
    requires total { total ≡ asked.head.g + (asked.key.len - at.depth) }
    requires space { Space asked.head image.old total }
    ensures { Builds asked.head image.old at.node (drop at.depth (letters_of asked.key))
        total value image.new }
{
    let h = asked.head;
    let letters = asked.key.letters;
    new_nodes(image, asked, at.depth + 1, value);
    Head::set_total(image, total);
    node::set_link(image, h, at.node, u32::from(letters[at.depth]), h.g + 1);
}

// Writes the new nodes by rising address, from G+1 on: one for the letter that stopped the walk,
// and one for each letter from `from` on. Each links to the next; the last holds the value.
fn new_nodes(image: &mut [u8], asked: Asked, from: usize, value: u64)
    requires permitted { permitted asked.head ≡ true }
    requires from { from ≤ asked.key.len }
    requires space { Space asked.head image.old (asked.head.g + suc (asked.key.len - from)) }
    ensures { image.new ≡ carried_out image.old (new_nodes asked.head (suc asked.head.g)
        (drop from (letters_of asked.key)) value) }
{
    let h = asked.head;
    // The node is carried along: after the loop it is the last new one. The letters are taken by
    // index, from an array of this function's own: over a slice of them, or over the caller's, a
    // store took six instructions more for each node.
    let letters = asked.key.letters;
    let mut node = h.g + 1;
    for depth in from..asked.key.len {
        let next = node + 1;
        node::write_path(image, h, node, u32::from(letters[depth]), next);
        node = next;
    }
    node::write_last(image, h, node, value);
}
