// Making an indexed shelf, and its calls.
ghost use Rattle.std.specs.Prelude.{◌≡◌, min, [], length, MatchResult};
ghost use Rattle.indexed.specs.Shelved.{Written, lender_of, records_of, room_of, sets_on};
ghost use Rattle.lists.specs.Limit.{limit};
ghost use Rattle.shelves.specs.Shelves.{Kept, Refused};

use crate::chains::slot;
use crate::{CHAINS, IndexedShelf, ShelfRecord};
use atoms::AtomSet;
use lists::{BoundedList, Full};
use shelves::Shelf;

impl<'a> IndexedShelf<'a> {
    // An empty shelf in the memory, which is left as it is. It has one place for each record, up to `lists::MAX_PLACES`.
    pub fn new(memory: &'a mut [ShelfRecord]) -> Self
        ensures empty { sets_on result ≡ [] }
        ensures places { room_of result ≡ min (length memory.old) limit }
        ensures untouched { records_of result ≡ memory.old }
        ensures lender { lender_of result ≡ memory.entry.ghost_name }
    {
        IndexedShelf {
            records: BoundedList::new(memory),
            heads: [0; CHAINS],
        }
    }
}

impl Shelf for IndexedShelf<'_> {
    ghost sets = { sets_on };

    ghost room = { room_of };

    ghost lender = { lender_of };

    fn len(&self) -> usize {
        self.records.len()
    }

    fn places(&self) -> usize {
        self.records.places()
    }

    fn get(&self, position: usize) -> Option<AtomSet> {
        self.records.get(position).map(|record| record.set)
    }

    // Follows the chain of the empty set, and those of the atoms of the given one: no other has a set that is contained in it.
    fn holds_subset_of(&self, set: AtomSet) -> bool {
        self.chain_holds(None, set) || set.iter().any(|atom| self.chain_holds(Some(atom), set))
    }

    // The set becomes the head of its chain, and leads to the head that was. Of the memory it writes the place of the set alone.
    fn keep(&mut self, set: AtomSet) -> Result<(), Full>
        ensures answer { MatchResult result
            (λ _. Kept sets_on room_of self.old set self.new)
            (λ _. Refused sets_on room_of self.old self.new) }
        ensures places { room_of self.new ≡ room_of self.old }
        ensures lender { lender_of self.new ≡ lender_of self.old }
        ensures memory { MatchResult result
            (λ _. Written (records_of self.old) (length (sets_on self.old)) set (records_of self.new))
            (λ _. records_of self.new ≡ records_of self.old) }
    {
        // A full shelf walks no run.
        if self.len() >= self.places() {
            return Err(Full);
        }
        let chain = slot(set.least());
        let link = self.heads[chain];
        let run = self.run_to(set, link);
        self.records.push(ShelfRecord {
            set,
            common: run.common,
            link,
            skip: run.skip,
        })?;
        self.heads[chain] = self.records.len() as u32;
        Ok(())
    }

    // It writes nothing into the memory.
    fn clear(&mut self)
        ensures empty { sets_on self.new ≡ [] }
        ensures places { room_of self.new ≡ room_of self.old }
        ensures lender { lender_of self.new ≡ lender_of self.old }
        ensures untouched { records_of self.new ≡ records_of self.old }
    {
        self.records.clear();
        self.heads = [0; CHAINS];
    }
}
