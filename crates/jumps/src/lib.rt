// The calls that jump by position. No public one has a `requires`: any bytes, counts, position or
// key may be passed. Each contract is one line: the numbers of the answer and the last content of
// every lent buffer are the outcome that 02, Ask 7, states (crate `position`).
#![tactic(auto)]

ghost use Rattle.std.specs.Prelude.{◌≡◌, true, length};
ghost use Rattle.field.specs.Range.{between};
ghost use Rattle.paper.specs.Answers.{found_of, value_of};
ghost use Rattle.position.specs.Promises.{GivesKey, GivesPosition};
ghost use Rattle.key.specs.Hand.{Ready, letters_of, given_of};
ghost use Rattle.jumps.specs.Jumps.{TellsKey, ranks_as};

use alphabet::Codes;
use head::Head;
use key::{GivenKey, Key};
use paper::{Found, Refusal};
use ranking::Counted;

// The stored key at a position, from 0: its letters at the front of the key buffer, its length and
// its value. Refusals: 1 to 8 (5 for either list), 16, 19, 25, 14, 15 for a position past the end.
pub fn key_at(
    image: &[u8],
    work: &mut [u32],
    counts: &[u32],
    position: u64,
    buffer: &mut [u8],
) -> Result<Found, Refusal>
    ensures { GivesKey image.now work.old counts.now position buffer.old (found_of result) work.new
        buffer.new }
{
    let mut codes = Codes::none();
    let h = comparing::compare(image, work, counts, &mut codes)?;
    tell_key(Counted::of(image, h, counts), position, buffer)
}

// The position of a stored key given by its letters or by its text. Refusals: 1 to 8 (5 for either
// list), 16, 19, 25, then 9, 10 of letters or 10, 9 of a text, 15 for a key that is not stored.
pub fn position(
    image: &[u8],
    work: &mut [u32],
    counts: &[u32],
    given: GivenKey,
) -> Result<u32, Refusal>
    ensures { GivesPosition image.now work.old counts.now (given_of given.entry) (value_of result)
        work.new }
{
    let asked = asking_counts::ask(image, work, counts, given)?;
    tell_position(Counted::of(image, asked.head, counts), asked.key)
}

// The part of `key_at` after 25: 14, 15 and the key. The key is found on a path of its own,
// since `ranking::key_at` does not promise to keep what follows the key's letters.
fn tell_key(counted: Counted, position: u64, buffer: &mut [u8]) -> Result<Found, Refusal>
    ensures { TellsKey counted.entry.sound.nodes.image.now position buffer.old result buffer.new }
{
    if buffer.len() < (counted.sound.nodes.head.max as usize) {
        return Err(Refusal::ShortBuffer);
    }
    if (counted.counts[0] as u64) <= position {
        return Err(Refusal::NoKey);
    }
    let mut path = [0u8; Head::MAX_MOST as usize];
    let spot = ranking::key_at(counted, position as u32, &mut path);
    field::copy(buffer, 0, &path[..spot.length]);
    Ok(Found {
        length: spot.length as u32,
        value: spot.value,
    })
}

// The part of `position` after 10: 15, or the number of stored keys before the key.
fn tell_position(counted: Counted, key: Key) -> Result<u32, Refusal>
    requires ready { Ready counted.sound.nodes.head key }
    requires allowed { between (length (letters_of key)) counted.sound.nodes.head.min
        counted.sound.nodes.head.max ≡ true }
    ensures { result ≡ ranks_as counted.entry.sound.nodes.image.now (letters_of key) }
{
    ranking::rank(counted, key).ok_or(Refusal::NoKey)
}
