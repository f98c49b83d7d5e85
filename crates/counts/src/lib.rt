// The calls that keep counts beside an image. None has a `requires`: any bytes, counts, key or
// value may be passed. Each contract is one line: the numbers of the answer and the last content
// of every lent buffer are the outcome that 02, Ask 7, states (crate `position`).
#![tactic(auto)]

ghost use Rattle.paper.specs.Answers.{done_of, stored_of};
ghost use Rattle.position.specs.Promises.{WorksOut, ChecksCounts, StoresCounts};
ghost use Rattle.key.specs.Hand.{given_of};

use alphabet::Codes;
use key::GivenKey;
use paper::Refusal;
use sound::Sound;

// Works the counts out afresh, at the front of the list. Refusals: 1 to 8 (5 for either list), 16,
// 19.
pub fn counts(image: &[u8], work: &mut [u32], list: &mut [u32]) -> Result<(), Refusal>
    ensures { WorksOut image.now work.old list.old (done_of result) work.new list.new }
{
    let mut codes = Codes::none();
    let h = comparing::check_both(image, work, list.len(), &mut codes)?;
    weighing::weigh(Sound::of(image, h), list);
    Ok(())
}

// Checks an image and compares its counts with fresh ones. Refusals: 1 to 8 (5 for either list),
// 16, 19, 25.
pub fn check_counts(image: &[u8], work: &mut [u32], list: &[u32]) -> Result<(), Refusal>
    ensures { ChecksCounts image.now work.old list.now (done_of result) work.new }
{
    let mut codes = Codes::none();
    comparing::compare(image, work, list, &mut codes)?;
    Ok(())
}

// As `stores::store`, and keeps the counts right. Refusals: 1 to 8 (5 for either list), 16, 19,
// 25, then 9, 10 of letters or 10, 9 of a text, 11, 12, 13, then 5 again if the list has no number
// for a new node.
pub fn store_counts(
    image: &mut [u8],
    work: &mut [u32],
    given: GivenKey,
    value: u64,
    list: &mut [u32],
) -> Result<i32, Refusal>
    ensures { StoresCounts image.old work.old (given_of given.entry) value list.old
        (stored_of result) image.new work.new list.new }
{
    let asked = asking_counts::ask(image, work, list, given)?;
    tracking::store_counted(image, asked, value, list)
}
