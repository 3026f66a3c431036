// Runs: sets that follow each other in a chain, with what they have in common.
ghost use Rattle.std.specs.Prelude.{◌≡◌, length};
ghost use Rattle.atoms.specs.Atoms.{bits};
ghost use Rattle.atoms.specs.Sets.{◌⊆◌};
ghost use Rattle.indexed.specs.Chains.{Shared, chain_of, last};
ghost use Rattle.lists.specs.Items.{items};

use crate::IndexedShelf;
use atoms::AtomSet;

// The atoms that all sets of a run have, and the link to the set before the run.
#[derive(Clone, Copy)]
pub(crate) struct Run {
    pub(crate) common: AtomSet,
    pub(crate) skip: u32,
}

impl IndexedShelf<'_> {
    // The run that ends with a set at the end of the shelf, whose chain has the head `link`. It takes in the runs before it one
    // after another, as long as the next reaches no further back than it does itself.
    pub(crate) fn run_to(&self, set: AtomSet, link: u32) -> Run
        requires { link ≡ last (items self.now.records) (chain_of set) (length (items self.now.records)) }
        ensures shared { Shared (items self.now.records) (chain_of set) (length (items self.now.records))
            result.common result.skip }
        ensures own { bits result.common ⊆ bits set }
    {
        let records = self.records.as_slice();
        let end = records.len() as u32 + 1;
        let mut common = set;
        let mut skip = link;
        while skip > 0 {
            let before = records[skip as usize - 1];
            if skip - before.skip > end - skip {
                break;
            }
            common = common.intersection(before.common);
            skip = before.skip;
        }
        Run { common, skip }
    }
}
