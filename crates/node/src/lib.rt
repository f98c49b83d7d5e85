// The nodes of an image: their links and their data, read and written. Only this crate turns bytes
// into the table of nodes; the crates above speak of the table. `Nodes` reads. The functions
// write: there the caller shows that the image is open (`Open`) and that node and letter are
// within G and N. `write_path` and `write_last` write a new node, which need only be inside the
// image.
#![tactic(auto)]

mod read;

ghost use Rattle.std.specs.Prelude.{◌≡◌, ◌+◌, ◌≤◌, ◌<◌, ◌^◌, true, [], ◌∷◌, length};
ghost use Rattle.trie.specs.Storing.{put, grow};
ghost use Rattle.field.specs.Field.{cleared};
ghost use Rattle.head.specs.Fields.{permitted, node_place, node_width};
ghost use Rattle.node.specs.Image.{Open, Masks, link_place, data_place, table_of};
ghost use Rattle.node.specs.Writes.{carried_out, path_write, last_write, link_write, data_write};

use head::Head;
pub use read::Nodes;

// The mask of a link's bytes. `Nodes::of` makes it once for all that reads these nodes.
pub fn mask(h: Head) -> u32
    requires { permitted h ≡ true }
    ensures { Masks h result }
{
    ones(h.a) as u32
}

// The greatest value that D bytes hold. It is also the mask of the data's bytes.
pub fn greatest(h: Head) -> u64
    requires { permitted h ≡ true }
    ensures { result + 1 ≡ 256 ^ h.d }
{
    ones(h.d)
}

// Writes the link for letter i of node q. In the table, node c is then linked there.
pub fn set_link(image: &mut [u8], h: Head, q: u32, i: u32, c: u32)
    requires open { Open h image.old }
    requires node { q ≤ h.g }
    requires letter { i < h.n }
    requires fits { c < 256 ^ h.a }
    ensures bytes { image.new ≡ carried_out image.old
        (link_write h q i c ∷ []) }
    ensures table { table_of h image.new ≡ grow (table_of h image.old) q i
        c }
{
    field::write(image, link_place(h, q, i), h.a as usize, c as u64);
}

// Writes the data of node q. In the table, the value is then the node's data.
pub fn set_data(image: &mut [u8], h: Head, q: u32, v: u64)
    requires open { Open h image.old }
    requires node { q ≤ h.g }
    requires fits { v < 256 ^ h.d }
    ensures bytes { image.new ≡ carried_out image.old (data_write h q v ∷ []) }
    ensures table { table_of h image.new ≡ put (table_of h image.old) q v }
{
    field::write(image, data_place(h, q), h.d as usize, v);
}

// Writes the whole of a new node q: the link for letter i is c, all else is zero.
pub fn write_path(image: &mut [u8], h: Head, q: u32, i: u32, c: u32)
    requires permitted { permitted h ≡ true }
    requires room { node_place h (q + 1) ≤ length image.old }
    requires letter { i < h.n }
    ensures { image.new ≡ carried_out image.old
        (path_write h q i c ∷ []) }
{
    wipe(image, h, q);
    field::write(image, link_place(h, q, i), h.a as usize, c as u64);
}

// Writes the whole of a new node q: the data is v, all else is zero.
pub fn write_last(image: &mut [u8], h: Head, q: u32, v: u64)
    requires permitted { permitted h ≡ true }
    requires room { node_place h (q + 1) ≤ length image.old }
    ensures { image.new ≡ carried_out image.old (last_write h q v ∷ []) }
{
    wipe(image, h, q);
    field::write(image, data_place(h, q), h.d as usize, v);
}

// The first byte of the link for letter i of node q.
pub fn link_place(h: Head, q: u32, i: u32) -> usize
    requires permitted { permitted h ≡ true }
    requires letter { i < h.n }
    ensures { result ≡ link_place h q i }
{
    (h.node_place(q as u64) as usize) + (i as usize) * (h.a as usize)
}

// The first byte of the data of node q.
pub fn data_place(h: Head, q: u32) -> usize
    requires { permitted h ≡ true }
    ensures { result ≡ data_place h q }
{
    (h.node_place(q as u64) as usize) + (h.n as usize) * (h.a as usize)
}

// Clears the whole of node q, since spare bytes may hold anything.
fn wipe(image: &mut [u8], h: Head, q: u32)
    requires permitted { permitted h ≡ true }
    requires room { node_place h (q + 1) ≤ length image.old }
    ensures { image.new ≡ cleared image.old (node_place h q)
        (node_width h) }
{
    field::clear(
        image,
        h.node_place(q as u64) as usize,
        h.node_width() as usize,
    );
}

// The number with all bits of 1 to 8 bytes set. The compiler makes a table of it.
fn ones(w: u32) -> u64
    requires { (1 ≤ w) × (w ≤ 8) }
    ensures { result + 1 ≡ 256 ^ w }
{
    match w {
        8 => 0xFFFFFFFFFFFFFFFF,
        7 => 0xFFFFFFFFFFFFFF,
        6 => 0xFFFFFFFFFFFF,
        5 => 0xFFFFFFFFFF,
        4 => 0xFFFFFFFF,
        3 => 0xFFFFFF,
        2 => 0xFFFF,
        _ => 0xFF,
    }
}
