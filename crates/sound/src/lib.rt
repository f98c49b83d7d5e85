// The nodes of an image that the check has accepted. The stages that only read such an image take
// them, and so need no clause that says so.
#![tactic(auto)]

ghost use Rattle.std.specs.Prelude.{◌≡◌};
ghost use Rattle.std.proofs.Props.{props};
ghost use Rattle.head.specs.Fields.{head_of};
ghost use Rattle.paper.specs.Accepted.{Accepted};
ghost use Rattle.sound.specs.CheckPassed.{Passed};

use head::Head;
use node::Nodes;

// The nodes of an accepted image.
#[derive(Clone, Copy)]
pub struct Sound<'a> {
    pub nodes: Nodes<'a>,
    pub ghost passed: { Passed nodes.head nodes.image.now } by { Prim.hlevel props },
    pub ghost own: { nodes.head ≡ head_of nodes.image.now } by { Prim.hlevel props },
}

impl<'a> Sound<'a> {
    // The nodes of an image that is accepted, by its own head.
    pub fn of(image: &'a [u8], head: Head) -> Sound<'a>
        requires accepted { Accepted image.now }
        requires own { head ≡ head_of image.now }
        ensures bytes { result.nodes.image.now ≡ image.now }
        ensures head { result.nodes.head ≡ head }
    {
        let nodes = Nodes::of(image, head);
        Sound { nodes }
    }
}
