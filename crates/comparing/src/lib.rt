// The check of an image with counts beside it: the check's rows, with 5 for either list, and 25.
// The public functions have no `requires`.
#![tactic(auto)]

ghost use Rattle.std.specs.Prelude.{◌≡◌, not, length, get_or, eqb};
ghost use Rattle.tallying.specs.Tallied.{lowest_in};
ghost use Rattle.comparing.specs.Comparing.{CheckedBoth, Compared};

use alphabet::Codes;
use head::Head;
use paper::Refusal;
use sound::Sound;

// Judges the check's rows of an image with `lent` counts beside it. The check is lent no more
// working numbers than there are counts, so that 5 is given for either list.
pub fn check_both(
    image: &[u8],
    work: &mut [u32],
    lent: usize,
    codes: &mut Codes,
) -> Result<Head, Refusal>
    ensures { CheckedBoth image.now work.old lent result work.new codes.new }
{
    let most = lent.min(work.len());
    audit::check(image, &mut work[..most], codes)
}

// Judges the check's rows, then 25. The fresh counts are worked out in the working numbers and
// compared with the counts lent.
pub fn compare(
    image: &[u8],
    work: &mut [u32],
    counts: &[u32],
    codes: &mut Codes,
) -> Result<Head, Refusal>
    ensures { Compared image.now work.old counts.now result work.new codes.new }
{
    let h = check_both(image, work, counts.len(), codes)?;
    let sound = Sound::of(image, h);
    let count = sound.nodes.count();
    weighing::add_up(sound, work);
    let differs = first_different(&work[..count], &counts[..count]);
    tallying::clear(work, count);
    match differs {
        Some(node) => Err(Refusal::CountsDiffer(node as u32)),
        None => Ok(h),
    }
}

// The lowest place at which the numbers of two lists of one length differ, if there is one. The
// two are mostly the same, and `==` is the quickest way to see it.
fn first_different(fresh: &[u32], counts: &[u32]) -> Option<usize>
    requires { length fresh.now ≡ length counts.now }
    ensures { result ≡ lowest_in (λ q. not (eqb (get_or counts.now q 0) (get_or fresh.now q 0))) 0
        (length counts.now) }
{
    if fresh == counts {
        return None;
    }
    fresh.iter().zip(counts).position(|(f, c)| f != c)
}
