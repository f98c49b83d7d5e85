// The calls that begin with the check and only read the image. None has a `requires`: any bytes
// or key may be passed. Each contract is one line: the numbers of the answer and the last
// content of every lent buffer are the outcome that document 01 states (crate `paper`).
#![tactic(auto)]

ghost use Rattle.paper.specs.Answers.{done_of, value_of, found_of};
ghost use Rattle.paper.specs.Promises.{Checks, CountsKeys, Nexts};

use alphabet::Codes;
use paper::{Found, Refusal};
use sound::Sound;

// Checks an image with lent working numbers. Refusals: 1 to 8, 16, 19.
pub fn check(image: &[u8], work: &mut [u32]) -> Result<(), Refusal>
    ensures { Checks image.now work.old (done_of result) work.new }
{
    let mut codes = Codes::none();
    audit::check(image, work, &mut codes)?;
    Ok(())
}

// The number of stored keys. Refusals: 1 to 8, 16, 19.
pub fn count(image: &[u8], work: &mut [u32]) -> Result<u32, Refusal>
    ensures { CountsKeys image.now work.old (value_of result) work.new }
{
    let mut codes = Codes::none();
    let h = audit::check(image, work, &mut codes)?;
    Ok(counting::count(Sound::of(image, h)))
}

// The first stored key at or after the key given or, if `after` is true, after it, in the key
// buffer. Refusals: 1 to 8, 16, 19, 9 for a key longer than max, 10, 14, 15.
pub fn next_key(
    image: &[u8],
    work: &mut [u32],
    letters: &[u8],
    after: bool,
    buffer: &mut [u8],
) -> Result<Found, Refusal>
    ensures { Nexts image.now work.old letters.now after buffer.old (found_of result) work.new
        buffer.new }
{
    let mut codes = Codes::none();
    let h = audit::check(image, work, &mut codes)?;
    seeking::seek(Sound::of(image, h), letters, after, buffer)
}
