// The stores, without and with writes. Neither has a `requires`: any bytes, key or value may be
// passed. Each contract is one line: the numbers of the answer and the last content of every
// lent buffer are the outcome that 01 states, or 02, Ask 1, for writes (crate `paper`).
#![tactic(auto)]

ghost use Rattle.paper.specs.Answers.{stored_of, noted_of};
ghost use Rattle.paper.specs.Promises.{Stores, StoresWrites};
ghost use Rattle.key.specs.Hand.{given_of};

use head::Head;
use key::GivenKey;
use paper::{Noted, Refusal};

// Stores a value under a key given by its letters or by its text; 0 deletes the key. Answers the
// change in the number of stored keys: -1, 0 or 1. Refusals: 1 to 8, 16, 19, then 9, 10 of letters
// or 10, 9 of a text, 11, 12, 13.
pub fn store(
    image: &mut [u8],
    work: &mut [u32],
    given: GivenKey,
    value: u64,
) -> Result<i32, Refusal>
    ensures { Stores image.old work.old (given_of given.entry) value (stored_of result) image.new
        work.new }
{
    let asked = asking::ask(image, work, given)?;
    storing::store(image, asked, value)
}

// As `store`, and notes the place and the length of each write, in order. The bytes of a write are
// those of the image after the call. Refusals: those of `store`.
pub fn store_writes(
    image: &mut [u8],
    work: &mut [u32],
    given: GivenKey,
    value: u64,
    writes: &mut [u32; Head::NOTED_MOST as usize],
) -> Result<Noted, Refusal>
    ensures { StoresWrites image.old work.old (given_of given.entry) value writes.old
        (noted_of result) image.new work.new writes.new }
{
    let asked = asking::ask(image, work, given)?;
    noting::store_noted(image, asked, value, writes)
}
