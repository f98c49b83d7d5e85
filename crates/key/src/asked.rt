// What a call goes on with, once 9 and 10 have passed.

ghost use Rattle.std.proofs.Props.{props};
ghost use Rattle.key.specs.Hand.{Ready};
ghost use Rattle.key.specs.Once.{LettersBelow-prop};

use super::Key;
use head::Head;

// The image's head, and a key in hand that is ready for it.
#[derive(Clone, Copy)]
pub struct Asked {
    pub head: Head,
    pub key: Key,
    pub ghost ready: { Ready head key } by { Prim.hlevel (props, LettersBelow-prop) },
}
