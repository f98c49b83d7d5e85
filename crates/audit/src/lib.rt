// The check of an image over lent working numbers: 1 to 8, 16 and 19. It takes time linear in the
// image and does not recurse, since a chain of links may be as long as the image. The links are
// tallied, and the nodes are marked with their depths. Where all is plain, each link leads to a
// greater address and no data is hidden; then every node is reached, and no search is needed.
#![tactic(auto)]

ghost use Rattle.std.specs.Prelude.{◌≡◌, ◌≤◌, ◌+◌, ◌++◌, length, drop, replicate};
ghost use Rattle.trie.specs.Rules.{Within, Once};
ghost use Rattle.head.specs.Fields.{longest_image};
ghost use Rattle.node.specs.Read.{node_table};
ghost use Rattle.audit.specs.Audit.{Checked, Audited, LinksJudged, ReachedJudged};

use alphabet::Codes;
use head::Head;
use node::Nodes;
use paper::Refusal;

// Checks an image, and answers its head and leaves its letters as opening does. Refusals: 1 to 8,
// 16 and 19.
pub fn check(image: &[u8], work: &mut [u32], codes: &mut Codes) -> Result<Head, Refusal>
    ensures { Checked image.now work.old result work.new codes.new }
{
    let h = opening::open(image, codes)?;
    audit(Nodes::of(image, h), work)?;
    Ok(h)
}

// Judges 5 to 8, 16 and 19. Once 5 is passed, the first G+1 working numbers are 0 when it returns,
// and the rest keep what they held; at 5 all keep it.
fn audit(nodes: Nodes, work: &mut [u32]) -> Result<(), Refusal>
    requires { length nodes.image.now ≤ longest_image }
    ensures { Audited nodes.entry.head nodes.entry.image.now work.old result work.new }
{
    let count = nodes.count();
    if work.len() < count {
        return Err(Refusal::TooFewNumbers);
    }
    tallying::clear(work, count);
    let verdict = links(nodes, work);
    tallying::clear(work, count);
    verdict
}

// Judges 6 to 8, 16 and 19, with working numbers whose first G+1 are 0.
fn links(nodes: Nodes, work: &mut [u32]) -> Result<(), Refusal>
    requires short { length nodes.image.now ≤ longest_image }
    requires room { nodes.head.g + 1 ≤ length work.old }
    requires zeros { work.old ≡ replicate (nodes.head.g + 1) 0
        ++ drop (nodes.head.g + 1) work.old }
    ensures { LinksJudged nodes.entry.head nodes.entry.image.now work.old result work.new }
{
    let count = nodes.count();
    if let Some(bad) = tallying::first_bad_node(nodes, work) {
        return Err(Refusal::Link(bad));
    }
    if tallying::all_met(work, count) & (work[0] == 1) {
        return Ok(());
    }
    if let Some(twice) = tallying::first_holding(work, count, tallying::AGAIN) {
        return Err(Refusal::LinkedTwice(twice as u32));
    }
    if let Some(missing) = tallying::first_holding(work, count, 0) {
        return Err(Refusal::NotLinked(missing as u32));
    }
    tallying::clear(work, count);
    reached(nodes, work)
}

// Judges 16 and 19, where no link is above G and no address stands in two links, with working
// numbers whose first G+1 are 0.
fn reached(nodes: Nodes, work: &mut [u32]) -> Result<(), Refusal>
    requires short { length nodes.image.now ≤ longest_image }
    requires within { Within (node_table nodes) nodes.head.g }
    requires once { Once (node_table nodes) }
    requires room { nodes.head.g + 1 ≤ length work.old }
    requires zeros { work.old ≡ replicate (nodes.head.g + 1) 0
        ++ drop (nodes.head.g + 1) work.old }
    ensures { ReachedJudged nodes.entry.head nodes.entry.image.now work.old result work.new }
{
    let count = nodes.count();
    let met = reaching::reach(nodes, work);
    if met as usize != count {
        if let Some(unreached) = tallying::first_holding(work, count, 0) {
            return Err(Refusal::NotReached(unreached as u32));
        }
    }
    if let Some(hidden) = tallying::first_hidden(nodes, work) {
        return Err(Refusal::Hidden(hidden));
    }
    Ok(())
}
