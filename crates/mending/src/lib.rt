// The trial of mending (02, Ask 1): the image with a lower G is checked as a whole.
#![tactic(auto)]

ghost use Rattle.std.specs.Prelude.{◌+◌, ◌≤◌, length};
ghost use Rattle.head.specs.Fields.{total_at, total_len};
ghost use Rattle.mending.specs.Trial.{Lowers};

use alphabet::Codes;
use head::Head;
use paper::Refusal;

// Sets G to p-1 if the image is accepted with it; else the image is left as it was. Refusals: 1 to
// 8, 16 and 19, of the image with G set to p-1. The codes are lent for the letters, which are
// unused here.
pub fn lower(image: &mut [u8], work: &mut [u32], p: u32, codes: &mut Codes) -> Result<(), Refusal>
    requires some { 1 ≤ p }
    requires room { total_at + total_len ≤ length image.old }
    ensures { Lowers image.old work.old p result image.new work.new }
{
    let total = Head::total(image);
    Head::set_total(image, p - 1);
    if let Err(why) = audit::check(image, work, codes) {
        Head::set_total(image, total);
        return Err(why);
    }
    Ok(())
}
