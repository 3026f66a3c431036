#![tactic(auto)]
// The indexed shelf: sets chained by their least atom, in memory that its maker lends.
ghost use Rattle.indexed.specs.Chains.{HeadsLead, LinksLead, RunsShare, SkipsFall, SkipsLead};
ghost use Rattle.lists.specs.Items.{items};

use atoms::AtomSet;
use lists::BoundedList;

mod chains;
mod record;
mod runs;
mod shelf;

pub use record::ShelfRecord;

// One for each atom, and one for the empty set.
const CHAINS: usize = AtomSet::WIDTH as usize + 1;

// Each record holds a set on the shelf. There is a chain for each atom, of the sets of which it is the least, and one for the
// empty set. `heads` leads to the last set of each chain, and a record's link to the set before it in its chain. Each record
// ends a run of its chain, and has the atoms that the sets of the run share.
// Links are positions in the records by a rule of the project: no heap, and the maker lends the memory.
#[derive(Drop)]
pub struct IndexedShelf<'a> {
    records: BoundedList<'a, ShelfRecord>,
    heads: [u32; CHAINS],
    ghost first: { HeadsLead heads (items records) },
    ghost further: { LinksLead (items records) },
    ghost falls: { SkipsFall (items records) },
    ghost back: { SkipsLead (items records) },
    ghost shared: { RunsShare (items records) },
}
