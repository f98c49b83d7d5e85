// The lookup. It has no `requires`: any bytes and any key may be passed. Its contract is one line:
// the numbers of the answer are the outcome that document 01 states (crate `paper`).
#![tactic(auto)]

ghost use Rattle.paper.specs.Answers.{value_of};
ghost use Rattle.paper.specs.Promises.{LooksUp};
ghost use Rattle.key.specs.Hand.{given_of};

use alphabet::Codes;
use key::GivenKey;
use node::Nodes;
use paper::Refusal;

// The value that is stored under a key given by its letters or by its text, 0 for absent. The
// image is not checked: 6 is given only for a bad link on the key's own path. Refusals: 1 to 4,
// then 9, 10 of letters or 10, 9 of a text, 6.
pub fn look_up(image: &[u8], given: GivenKey) -> Result<u64, Refusal>
    ensures { LooksUp image.now (given_of given.entry) (value_of result) }
{
    let mut codes = Codes::none();
    let h = opening::open(image, &mut codes)?;
    let key = given.judge(h, &codes)?;
    walk::look(Nodes::of(image, h), key)
}
