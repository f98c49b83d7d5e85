// The head of an image: its seven fields read and written, what is permitted in them, and the
// lengths that follow from them. Places and U are 64-bit numbers: (G+1)*W may need 43 bits, and
// in 32 bits a great G would wrap into range.
#![tactic(auto)]

ghost use Rattle.std.specs.Prelude.{◌≡◌, true, ◌+◌, ◌≤◌, ◌^◌, leb, length};
ghost use Rattle.std.proofs.lemmas.List.Edits.{sets};
ghost use Rattle.field.specs.Range.{between};
ghost use Rattle.head.specs.Fields.{shortest_image, longest_image, fields_len, total_at};
ghost use Rattle.head.specs.Fields.{total_len, head_of, head_bytes, put_total, permitted};
ghost use Rattle.head.specs.Fields.{node_width, node_place, used_len};

// The seven fields of 01's table, in the order in which they are in the image. That they are as is
// permitted stays a clause: a head is read before it is judged, and a type for one that has been
// judged would stand before each of its fields.
#[derive(Clone, Copy)]
pub struct Head {
    // The greatest node address.
    pub g: u32,
    // The links in a node.
    pub n: u32,
    // The bytes in a link.
    pub a: u32,
    // The bytes of data.
    pub d: u32,
    // The bytes of the alphabet.
    pub f: u32,
    // The letters in the shortest key.
    pub min: u32,
    // The letters in the longest key.
    pub max: u32,
}

// Whether an image may have this length. If not, the refusal is 1.
pub fn length_allowed(len: usize) -> bool
    ensures { result ≡ between len shortest_image longest_image }
{
    (Head::IMAGE_LEAST <= len) & (len <= Head::IMAGE_MOST)
}

impl Head {
    // The greatest N: links in a node.
    pub const N_MOST: u32 = 256;

    // The greatest A: bytes in a link.
    pub const A_MOST: u32 = 4;

    // The greatest D: bytes of data.
    pub const D_MOST: u32 = 8;

    // The greatest F: bytes of alphabet.
    pub const F_MOST: u32 = 1024;

    // The greatest max: letters in a key.
    pub const MAX_MOST: u32 = 64;

    // The most nodes on a key's path: the root and a node for each letter.
    pub const PATH_MOST: u32 = Head::MAX_MOST + 1;

    // The most writes of a store: a new node for each letter, G and the old link.
    pub const WRITES_MOST: u32 = Head::MAX_MOST + 2;

    // The numbers in a list of the most writes: two for each write.
    pub const NOTED_MOST: u32 = 2 * Head::WRITES_MOST;

    // The bytes of the seven fields. The alphabet begins after them.
    pub const FIELDS_LEN: usize = 28;

    // The first byte of G.
    pub const TOTAL_AT: u32 = 0;

    // The bytes of G.
    pub const TOTAL_LEN: u32 = 4;

    // The bytes of the shortest image.
    pub const IMAGE_LEAST: usize = Head::FIELDS_LEN;

    // The bytes of the longest image.
    pub const IMAGE_MOST: usize = 16777216;

    // Reads the seven fields at the front of an image.
    pub fn read(image: &[u8]) -> Head
        requires { fields_len ≤ length image.now }
        ensures { result ≡ head_of image.now }
    {
        Head {
            g: field::read4(image, 0),
            n: field::read4(image, 4),
            a: field::read4(image, 8),
            d: field::read4(image, 12),
            f: field::read4(image, 16),
            min: field::read4(image, 20),
            max: field::read4(image, 24),
        }
    }

    // Writes the seven fields at the front of an image.
    pub fn write(self, image: &mut [u8])
        requires { fields_len ≤ length image.old }
        ensures { image.new ≡ sets image.old 0 (head_bytes self) }
    {
        field::write(image, 0, 4, self.g as u64);
        field::write(image, 4, 4, self.n as u64);
        field::write(image, 8, 4, self.a as u64);
        field::write(image, 12, 4, self.d as u64);
        field::write(image, 16, 4, self.f as u64);
        field::write(image, 20, 4, self.min as u64);
        field::write(image, 24, 4, self.max as u64);
    }

    // Reads G alone.
    pub fn total(image: &[u8]) -> u32
        requires { total_at + total_len ≤ length image.now }
        ensures { result ≡ (head_of image.now).g }
    {
        field::read4(image, Head::TOTAL_AT as usize)
    }

    // Writes G alone.
    pub fn set_total(image: &mut [u8], g: u32)
        requires { total_at + total_len ≤ length image.old }
        ensures { image.new ≡ put_total image.old g }
    {
        field::write(
            image,
            Head::TOTAL_AT as usize,
            Head::TOTAL_LEN as usize,
            g as u64,
        );
    }

    // Whether every field is as 01's table permits. If not, the refusal is 2. F is tested by
    // itself: the compiler would put four tests of one kind into a vector, which costs more than
    // it saves.
    pub fn permitted(self) -> bool
        ensures { result ≡ permitted self }
    {
        if Head::F_MOST < self.f {
            return false;
        }
        (1 <= self.n)
            & (self.n <= Head::N_MOST)
            & (1 <= self.a)
            & (self.a <= Head::A_MOST)
            & (1 <= self.d)
            & (self.d <= Head::D_MOST)
            & (self.min <= self.max)
            & (self.max <= Head::MAX_MOST)
    }

    // W, the bytes of a node.
    pub fn node_width(self) -> u64
        requires { permitted self ≡ true }
        ensures { result ≡ node_width self }
    {
        (self.n as u64) * (self.a as u64) + (self.d as u64)
    }

    // The byte at which node q begins. q may be G+1, which is one above every address.
    pub fn node_place(self, q: u64) -> u64
        requires head_permitted { permitted self ≡ true }
        requires address { q ≤ 2 ^ 32 }
        ensures { result ≡ node_place self q }
    {
        (Head::FIELDS_LEN as u64) + (self.f as u64) + q * self.node_width()
    }

    // U, the used length: the bytes of the head, the alphabet and the nodes 0 to G.
    pub fn used(self) -> u64
        requires { permitted self ≡ true }
        ensures { result ≡ used_len self }
    {
        self.node_place((self.g as u64) + 1)
    }

    // Whether U is at most the length of the image. If not, the refusal is 4.
    pub fn fits(self, len: usize) -> bool
        requires { permitted self ≡ true }
        ensures { result ≡ leb (used_len self) len }
    {
        self.used() <= (len as u64)
    }
}
