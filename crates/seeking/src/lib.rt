// Next key after the check, on an image that has been checked: 9, 10, 14, 15, and the first
// stored key that meets the request.
#![tactic(auto)]

ghost use Rattle.seeking.specs.Seeking.{Seeks};

use head::Head;
use key::Key;
use paper::{Found, Refusal};
use sound::Sound;

// Finds the first stored key at or after the key given or, if `after` is true, after it.
// Refusals: 9 for a key longer than max, 10, 14, 15.
pub fn seek(sound: Sound, letters: &[u8], after: bool, buffer: &mut [u8]) -> Result<Found, Refusal>
    ensures { Seeks sound.entry.nodes.image.now letters.now after buffer.old result buffer.new }
{
    let nodes = sound.nodes;
    let key = Key::of(letters);
    key.judge_next(nodes.head)?;
    if buffer.len() < (nodes.head.max as usize) {
        return Err(Refusal::ShortBuffer);
    }
    // 15 leaves the buffer as it was, so the search writes to a path of its own.
    let mut path = [0u8; Head::MAX_MOST as usize];
    let mut addresses = [0u32; Head::PATH_MOST as usize];
    let Some(spot) = traversal::next(nodes, key, after, &mut path, &mut addresses) else {
        return Err(Refusal::NoKey);
    };
    // As `jumps::tell_key` ends: a function for both would take all that these lines name.
    field::copy(buffer, 0, &path[..spot.length]);
    Ok(Found {
        length: spot.length as u32,
        value: spot.value,
    })
}
