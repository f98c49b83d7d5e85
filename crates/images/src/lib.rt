// The calls make and mend. Neither has a `requires`: any bytes and numbers may be handed over.
// Each promises that the numbers of its answer and the last content of every lent buffer are the
// outcome that documents 01 and 02 state (crate `paper`).
#![tactic(auto)]

ghost use Rattle.paper.specs.Answers.{done_of};
ghost use Rattle.paper.specs.Promises.{Makes, Mends};

use alphabet::Codes;
use head::Head;
use paper::Refusal;

// Makes a fresh image in the lent slice: head, alphabet and a zero root. Refusals: 1, 2, 3, 4.
pub fn make(
    image: &mut [u8],
    n: u32,
    a: u32,
    d: u32,
    alphabet: &[u8],
    min: u32,
    max: u32,
) -> Result<(), Refusal>
    ensures { Makes image.old n a d alphabet.now min max (done_of result) image.new }
{
    let len = image.len();
    if !head::length_allowed(len) {
        return Err(Refusal::ImageLength);
    }
    let f = alphabet.len();
    if (Head::F_MOST as usize) < f {
        return Err(Refusal::HeadField);
    }
    let h = Head {
        g: 0,
        n,
        a,
        d,
        f: f as u32,
        min,
        max,
    };
    let mut codes = Codes::none();
    opening::judge(h, alphabet, len, &mut codes)?;
    making::fresh(image, h, alphabet);
    Ok(())
}

// Mends an image after a cut between two writes of a store: if the check answers 8 at p, and the
// image with G set to p-1 is accepted, G becomes p-1. Otherwise nothing changes, and the check's
// answer is returned. Refusals: 1 to 8, 16, 19.
pub fn mend(image: &mut [u8], work: &mut [u32]) -> Result<(), Refusal>
    ensures { Mends image.old work.old (done_of result) image.new work.new }
{
    let mut codes = Codes::none();
    let Err(why) = audit::check(image, work, &mut codes) else {
        return Ok(());
    };
    let Refusal::NotLinked(p) = why else {
        return Err(why);
    };
    let trial = mending::lower(image, work, p, &mut codes);
    trial.or(Err(why))
}
