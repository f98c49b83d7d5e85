// The nodes of an opened image, as they are read.

ghost use Rattle.std.specs.Prelude.{◌≡◌, ℕ, ◌+◌, ◌^◌};
ghost use Rattle.node.specs.Image.{Open, Masks};

use head::Head;

// The nodes of an opened image: its bytes, its head, and the masks by which links and data are
// read, made once.
#[derive(Clone, Copy)]
pub struct Nodes<'a> {
    pub image: &'a [u8],
    pub head: Head,
    pub link_mask: u32,
    pub data_mask: u64,
    pub ghost open: { Open head image.now },
    pub ghost links: { Masks head link_mask },
    pub ghost values: { data_mask + 1 ≡ 256 ^ head.d },
}

impl<'a> Nodes<'a> {
    ghost use Rattle.std.specs.Prelude.{◌≤◌, ◌<◌, true};
    ghost use Rattle.node.specs.Read.{node_table};

    // The nodes of an image that has been opened.
    pub fn of(image: &'a [u8], head: Head) -> Nodes<'a>
        requires { Open head image.now }
        ensures bytes { result.image.now ≡ image.now }
        ensures head { result.head ≡ head }
    {
        Nodes {
            image,
            head,
            link_mask: super::mask(head),
            data_mask: super::greatest(head),
        }
    }

    // How many nodes there are: G+1.
    pub fn count(self) -> usize
        ensures { result ≡ self.entry.head.g + 1 }
    {
        (self.head.g as usize) + 1
    }

    // Reads the link for letter i of node q. That a node is within G and a letter below N is a
    // clause wherever one is given: each call has another.
    pub fn link(self, q: u32, i: u32) -> u32
        requires node { q ≤ self.head.g }
        requires letter { i < self.head.n }
        ensures { result ≡ (node_table self.entry).child q i }
    {
        let end = super::link_place(self.head, q, i) + (self.head.a as usize);
        field::load_masked(self.image, end, self.link_mask as u64) as u32
    }

    // True only if all links of node q are empty. It answers false if they take fewer than eight
    // bytes, and the caller then reads them.
    pub fn childless(self, q: u32) -> bool
        requires { q ≤ self.head.g }
        ensures { result ≡ true → (i : ℕ) → (node_table self.entry).child q i ≡ 0 }
    {
        let h = self.head;
        field::blank(
            self.image,
            h.node_place(q as u64) as usize,
            super::data_place(h, q),
        )
    }

    // Reads the data of node q.
    pub fn data(self, q: u32) -> u64
        requires { q ≤ self.head.g }
        ensures { result ≡ (node_table self.entry).value q }
    {
        let end = super::data_place(self.head, q) + (self.head.d as usize);
        field::load_masked(self.image, end, self.data_mask)
    }
}
