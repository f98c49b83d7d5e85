// A store with writes, after 10. It stores as `storing` does and notes its writes in the lent
// list: a place and a length for each write, in the order in which they are done. What is noted
// depends on how the key's walk ended.
#![tactic(auto)]

ghost use Rattle.std.specs.Prelude.{◌≡◌, ℕ, suc, ◌+◌, ◌-◌, ◌*◌, ◌≤◌, ◌<◌, true, [], ◌∷◌, drop};
ghost use Rattle.std.proofs.lemmas.List.Edits.{sets};
ghost use Rattle.trie.specs.Table.{missing};
ghost use Rattle.trie.specs.Storing.{added};
ghost use Rattle.head.specs.Fields.{most_writes, head_of, longest_image, permitted, node_width};
ghost use Rattle.head.specs.Fields.{used_len};
ghost use Rattle.paper.specs.Accepted.{Accepted};
ghost use Rattle.key.specs.Hand.{letters_of};
ghost use Rattle.storing.specs.StoreStage.{Stop, end_of, stopped_at, Ends};
ghost use Rattle.noting.specs.Noting.{NotesIn, Notes};

use head::Head;
use key::Asked;
use node::Nodes;
use paper::{Noted, Refusal};
use walk::{Position, Walked};

// Stores a value under a key, 0 to delete it, and notes its writes. Refusals: 11, 12, 13; they
// leave the list as it was.
pub fn store_noted(
    image: &mut [u8],
    asked: Asked,
    value: u64,
    writes: &mut [u32; Head::NOTED_MOST as usize],
) -> Result<Noted, Refusal>
    requires accepted { Accepted image.old }
    requires own { asked.head ≡ head_of image.old }
    ensures { NotesIn image.old (letters_of asked.key) value writes.old result
        image.new writes.new }
{
    let walked = walk::walk(Nodes::of(image, asked.head), asked.key)?;
    let change = storing::store_at(image, asked, walked, value)?;
    Ok(Noted {
        change,
        writes: note_all(writes, asked, walked, value),
    })
}

// Notes the writes of a store, given how the key's walk ended, and answers how many they are.
// The places fit 32 bits, since the new nodes fit the longest image.
fn note_all(
    writes: &mut [u32; Head::NOTED_MOST as usize],
    asked: Asked,
    walked: Walked,
    value: u64,
) -> u32
    requires permitted { permitted asked.head ≡ true }
    requires ends { Ends asked.head asked.key walked }
    requires short { used_len asked.head
        + added (missing (end_of (letters_of asked.key) walked)) value * node_width asked.head
        ≤ longest_image }
    ensures { Notes asked.head (end_of (letters_of asked.key) walked) value writes.old result
        writes.new }
{
    let h = asked.head;
    match walked {
        Walked::Complete(node) => {
            note(writes, 0, node::data_place(h, node) as u32, h.d);
            1
        }
        Walked::Stopped(at) if value != 0 => note_path(writes, asked, at),
        Walked::Stopped(_) => 0,
    }
}

// Notes the writes of a new path: the new nodes by rising address, G, the link.
fn note_path(writes: &mut [u32; Head::NOTED_MOST as usize], asked: Asked, at: Position) -> u32
    requires permitted { permitted asked.head ≡ true }
    requires stop { Stop asked.head asked.key at }
    requires short { used_len asked.head
        + (asked.key.len - at.depth) * node_width asked.head ≤ longest_image }
    ensures { (v : ℕ) → Notes asked.head
        (stopped_at at.node (drop at.depth (letters_of asked.key)))
        (suc v) writes.old result writes.new }
{
    let h = asked.head;
    let key = asked.key;
    let depth = at.depth;
    let letters = key.letters;
    let nodes = key.len - depth;
    let width = h.node_width() as u32;
    let link = node::link_place(h, at.node, letters[depth] as u32) as u32;
    // The place is carried along: a product in each turn would owe its bound anew.
    let mut place = h.used() as u32;
    for i in 0..nodes {
        note(writes, i, place, width);
        place += width;
    }
    note(writes, nodes, Head::TOTAL_AT, Head::TOTAL_LEN);
    note(writes, nodes + 1, link, h.a);
    (nodes + 2) as u32
}

// Notes write i of the list.
fn note(writes: &mut [u32; Head::NOTED_MOST as usize], i: usize, place: u32, len: u32)
    requires { i < most_writes }
    ensures { writes.new ≡ sets writes.old (2 * i) (place ∷ len ∷ []) }
{
    writes[2 * i] = place;
    writes[2 * i + 1] = len;
}
