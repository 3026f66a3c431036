// The records that the memory of an indexed shelf is made of.
ghost use Rattle.std.specs.Prelude.{◌≡◌};
ghost use Rattle.atoms.specs.Atoms.{bits};

use atoms::AtomSet;

// A set, and the link to the set before it in its chain: 0 where there is none, and else one more than its position. A run of
// the chain ends with the set: `common` has only atoms that all sets of the run have, and `skip` is the link to the set before
// the run.
// A number serves for no link: a run's length is the difference of two links, and 0 is the place before the first set.
// The run's fields stand flat: a record with a `Run` in it takes 32 bytes and not 24 of the memory that is lent.
#[derive(Clone, Copy)]
pub struct ShelfRecord {
    pub(crate) set: AtomSet,
    pub(crate) common: AtomSet,
    pub(crate) link: u32,
    pub(crate) skip: u32,
}

impl ShelfRecord {
    // A record to fill memory with.
    pub const fn blank() -> ShelfRecord
        ensures { bits result.set ≡ 0 }
    {
        ShelfRecord {
            set: AtomSet::empty(),
            common: AtomSet::empty(),
            link: 0,
            skip: 0,
        }
    }
}
