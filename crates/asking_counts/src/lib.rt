// What a store with counts judges before 11, and the position of a key before 15: the check's
// rows, 25, then 9 and 10 of the key given. It requires nothing.
#![tactic(auto)]

ghost use Rattle.key.specs.Hand.{given_of};
ghost use Rattle.asking_counts.specs.AskedCounts.{AsksCounts};

use alphabet::Codes;
use key::{Asked, GivenKey};
use paper::Refusal;

// Judges the check's rows, 25, then the key given. Refusals: 1 to 8, 16, 19, 25, then 9, 10 of
// letters or 10, 9 of a text. It is compiled into its callers, as `GivenKey::judge` is.
#[inline(always)]
pub fn ask(
    image: &[u8],
    work: &mut [u32],
    counts: &[u32],
    given: GivenKey,
) -> Result<Asked, Refusal>
    ensures { AsksCounts image.now work.old counts.now (given_of given.entry) result work.new }
{
    let mut codes = Codes::none();
    let head = comparing::compare(image, work, counts, &mut codes)?;
    let key = given.judge(head, &codes)?;
    Ok(Asked { head, key })
}
