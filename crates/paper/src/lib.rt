// Document 01, "What the bench may hear": the refusals with their numbers and places. A call
// answers `Err` with its refusal, or `Ok` with what is done. specs/ has the rows, their orders and
// the outcome of each call.
#![tactic(auto)]

ghost use Rattle.std.specs.Prelude.{◌≡◌};
ghost use Rattle.paper.specs.Answers.{said_of};
ghost use Rattle.paper.specs.Rows.{bad_link};

// The refusals of 01's table, and 16 and 25 of 02. A refusal whose place is a node or an address
// carries it; every other place is 0.
#[derive(Clone, Copy)]
pub enum Refusal {
    // 1: the image is shorter than 28 or longer than 16,777,216 bytes.
    ImageLength,
    // 2: a head field is outside its limits.
    HeadField,
    // 3: the alphabet is not N different well-formed characters.
    Alphabet,
    // 4: the nodes do not fit: U exceeds the image's length.
    ImageRoom,
    // 5: too few working numbers, or counts, are lent.
    TooFewNumbers,
    // 6: a link is above G. The place is the node that holds it.
    Link(u32),
    // 7: an address stands in two links or more. The place is the lowest such address.
    LinkedTwice(u32),
    // 8: an address in 1..G stands in no link. The place is the lowest such address.
    NotLinked(u32),
    // 9: the key's length is outside min..max; for next key, above max.
    KeyLength,
    // 10: a letter number is N or more, or the text names no key.
    Letter,
    // 11: the value is above 256^D - 1.
    ValueTooGreat,
    // 12: the new nodes find no address in A bytes.
    NoAddress,
    // 13: the new nodes find no room in the image.
    NoRoom,
    // 14: the key buffer is shorter than max.
    ShortBuffer,
    // 15: no stored key meets the request.
    NoKey,
    // 16: a node is not reached from the root. The place is the lowest such node.
    NotReached(u32),
    // 19: data at a depth outside min..max. The place is the lowest node that has such data.
    Hidden(u32),
    // 25: a count is not the fresh one. The place is the lowest such node.
    CountsDiffer(u32),
}

impl Refusal {
    // The number that 01's table has for it; 16, 19 and 25 are 02's.
    pub fn number(self) -> u32
        ensures { result ≡ (said_of self).number }
    {
        match self {
            Refusal::ImageLength => 1,
            Refusal::HeadField => 2,
            Refusal::Alphabet => 3,
            Refusal::ImageRoom => 4,
            Refusal::TooFewNumbers => 5,
            Refusal::Link(_) => 6,
            Refusal::LinkedTwice(_) => 7,
            Refusal::NotLinked(_) => 8,
            Refusal::KeyLength => 9,
            Refusal::Letter => 10,
            Refusal::ValueTooGreat => 11,
            Refusal::NoAddress => 12,
            Refusal::NoRoom => 13,
            Refusal::ShortBuffer => 14,
            Refusal::NoKey => 15,
            Refusal::NotReached(_) => 16,
            Refusal::Hidden(_) => 19,
            Refusal::CountsDiffer(_) => 25,
        }
    }

    // The node or the address that 01 or 02 names as the place, else 0.
    pub fn place(self) -> u32
        ensures { result ≡ (said_of self).place }
    {
        match self {
            Refusal::Link(node) => node,
            Refusal::LinkedTwice(address) => address,
            Refusal::NotLinked(address) => address,
            Refusal::NotReached(node) => node,
            Refusal::Hidden(node) => node,
            Refusal::CountsDiffer(node) => node,
            Refusal::ImageLength => 0,
            Refusal::HeadField => 0,
            Refusal::Alphabet => 0,
            Refusal::ImageRoom => 0,
            Refusal::TooFewNumbers => 0,
            Refusal::KeyLength => 0,
            Refusal::Letter => 0,
            Refusal::ValueTooGreat => 0,
            Refusal::NoAddress => 0,
            Refusal::NoRoom => 0,
            Refusal::ShortBuffer => 0,
            Refusal::NoKey => 0,
        }
    }
}

// Does link c break the first link rule, in an image whose greatest address is g? The check asks
// it of every link, a lookup of the links on the key's path.
pub fn bad_link(g: u32, c: u32) -> bool
    ensures { result ≡ bad_link g c }
{
    g < c
}

// What a store with writes answers where it is done.
#[derive(Clone, Copy)]
pub struct Noted {
    // The change in the number of stored keys.
    pub change: i32,
    // How many writes are noted in the list.
    pub writes: u32,
}

// A stored key that a call found. Its letters are at the front of the key buffer.
#[derive(Clone, Copy)]
pub struct Found {
    // The number of its letters.
    pub length: u32,
    // Its value.
    pub value: u64,
}
