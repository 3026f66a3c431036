// Going through the atoms of a set. `members s` has the atoms of the set `s`, rising.
ghost use Rattle.std.specs.Prelude.{◌≡◌};
ghost use Rattle.std.specs.Iterator.{YieldsFirst, item_count};
ghost use Rattle.atoms.specs.Members.{atoms_left, members};

use crate::{Atom, AtomSet};

// An iterator over the atoms of a set, from the least to the greatest.
#[derive(Clone, Copy)]
pub struct Atoms {
    left: AtomSet,
}

impl AtomSet {
    // The atoms of the set, one by one, rising.
    pub fn iter(self) -> Atoms
        ensures { atoms_left result ≡ members self }
    {
        Atoms { left: self }
    }
}

impl Iterator for Atoms {
    type Item = Atom;

    ghost next_gives = { YieldsFirst atoms_left };

    ghost remaining = { item_count atoms_left };

    fn next(&mut self) -> Option<Atom> {
        let atom = self.left.least()?;
        self.left = self.left.without_least();
        Some(atom)
    }
}
