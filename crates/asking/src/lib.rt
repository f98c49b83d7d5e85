// What every store judges before 11: the check's rows, then 9 and 10 of the key given. It requires
// nothing.
#![tactic(auto)]

ghost use Rattle.key.specs.Hand.{given_of};
ghost use Rattle.asking.specs.Asked.{Asks};

use alphabet::Codes;
use key::{Asked, GivenKey};
use paper::Refusal;

// Judges the check's rows, then the key given. Refusals: 1 to 8, 16, 19, then 9, 10 of letters or
// 10, 9 of a text. `asking_counts::ask` differs in its first stage alone; what they share is
// `GivenKey::judge`, and a function over the stage would be longer than the two. Like that, both
// are compiled into their callers.
#[inline(always)]
pub fn ask(image: &[u8], work: &mut [u32], given: GivenKey) -> Result<Asked, Refusal>
    ensures { Asks image.now work.old (given_of given.entry) result work.new }
{
    let mut codes = Codes::none();
    let head = audit::check(image, work, &mut codes)?;
    let key = given.judge(head, &codes)?;
    Ok(Asked { head, key })
}
