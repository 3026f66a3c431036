// The chains, by their keys, and the walk along a chain.
ghost use Rattle.std.specs.Prelude.{◌≡◌, ◌≤◌, MatchBool};
ghost use Rattle.atoms.specs.Atoms.{width};
ghost use Rattle.indexed.specs.Chains.{NoneIn, slot_of};
ghost use Rattle.indexed.specs.Shelved.{sets_on};
ghost use Rattle.shelves.specs.Shelves.{Holds};

use crate::IndexedShelf;
use atoms::{Atom, AtomSet};

// Where the head of a chain stands: that of the atom, or, for no atom, that of the empty set, past all atoms.
pub(crate) fn slot(least: Option<Atom>) -> usize
    ensures value { result ≡ slot_of least }
    ensures bound { result ≤ width }
{
    least.map_or(AtomSet::WIDTH, |atom| atom.number()) as usize
}

impl IndexedShelf<'_> {
    // Is some set of the chain contained in the given one? Passes over each run whose common atoms are not all in it.
    pub(crate) fn chain_holds(&self, least: Option<Atom>, set: AtomSet) -> bool
        ensures { MatchBool result (Holds (sets_on self.now) set)
            (NoneIn (sets_on self.now) (slot_of least) set) }
    {
        let records = self.records.as_slice();
        let mut link = self.heads[slot(least)];
        while link > 0 {
            let record = records[link as usize - 1];
            if !record.common.is_subset(set) {
                link = record.skip;
            } else if record.set.is_subset(set) {
                return true;
            } else {
                link = record.link;
            }
        }
        false
    }
}
