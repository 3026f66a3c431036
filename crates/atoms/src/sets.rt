// The operations on sets. `bits s` is the set that `s` holds, and `has (bits s) a` says that the atom `a` is in it.
ghost use Rattle.std.specs.Prelude.{◌≡◌, ℕ, ◌^◌, ◌<◌, ◌≤◌, true, false, not, ◌&&◌, ◌||◌, Decides, MatchBool, MatchOption, ◌==◌, nat_eq};
ghost use Rattle.std.specs.Ordering.{on};
ghost use Rattle.atoms.specs.Sets.{hasb, has, ◌⊆◌, Empty, Disjoint, Least, Greatest, union, meet, minus, insert, remove, size, Dropped};
ghost use Rattle.atoms.specs.Atoms.{bits, index, width};
ghost use Rattle.std.specs.Cmp.Rules.{comparing};
ghost use Rattle.std.proofs.Common.{rules, arith};
ghost use Rattle.std.specs.Cmp as Keys;

use crate::{Atom, AtomSet};

impl AtomSet {
    // How many atoms there are: they are the numbers below it.
    pub const WIDTH: u8 = 64;

    // The set with no atom.
    pub const fn empty() -> AtomSet
        ensures value { bits result ≡ 0 }
        ensures members { Empty (bits result) }
    {
        AtomSet { word: 0 }
    }

    // The set whose atoms are the set digits of a word. Constants may call it, which `From` would not let them.
    pub const fn from_word(word: u64) -> AtomSet
        ensures { bits result ≡ word }
    {
        AtomSet { word }
    }

    // The word whose set digits are the atoms of the set; constants may call it too.
    pub const fn word(self) -> u64
        ensures { result ≡ bits self }
    {
        self.word
    }

    // The set with one atom.
    pub fn single(atom: Atom) -> AtomSet
        ensures value { bits result ≡ 2 ^ index atom }
        ensures members { (b : ℕ) → hasb (bits result) b ≡ (index atom == b) }
    {
        AtomSet {
            word: 1 << atom.index,
        }
    }

    // Is the atom in the set?
    pub fn contains(self, atom: Atom) -> bool
        ensures { result ≡ hasb (bits self) (index atom) }
    {
        (self.word >> atom.index) & 1 == 1
    }

    // The set with the atom, which may have been in it.
    pub fn with(self, atom: Atom) -> AtomSet
        ensures value { bits result ≡ insert (bits self) (index atom) }
        ensures members { (b : ℕ) → hasb (bits result) b ≡ (hasb (bits self) b || index atom == b) }
    {
        self.union(AtomSet::single(atom))
    }

    // The set without the atom, which need not have been in it.
    pub fn without(self, atom: Atom) -> AtomSet
        ensures value { bits result ≡ remove (bits self) (index atom) }
        ensures members { (b : ℕ) → hasb (bits result) b ≡ (hasb (bits self) b && not (index atom == b)) }
    {
        self.difference(AtomSet::single(atom))
    }

    // The atoms of either set.
    pub fn union(self, other: AtomSet) -> AtomSet
        ensures value { bits result ≡ union (bits self) (bits other) }
        ensures members { (a : ℕ) → hasb (bits result) a ≡ (hasb (bits self) a || hasb (bits other) a) }
    {
        AtomSet {
            word: self.word | other.word,
        }
    }

    // The atoms of both sets.
    pub fn intersection(self, other: AtomSet) -> AtomSet
        ensures value { bits result ≡ meet (bits self) (bits other) }
        ensures members { (a : ℕ) → hasb (bits result) a ≡ (hasb (bits self) a && hasb (bits other) a) }
    {
        AtomSet {
            word: self.word & other.word,
        }
    }

    // The atoms of the set that are not in the other.
    pub fn difference(self, other: AtomSet) -> AtomSet
        ensures value { bits result ≡ minus (bits self) (bits other) }
        ensures members { (a : ℕ) → hasb (bits result) a ≡ (hasb (bits self) a && not (hasb (bits other) a)) }
    {
        AtomSet {
            word: self.word & !other.word,
        }
    }

    // Has the set no atom?
    pub fn is_empty(self) -> bool
        ensures value { result ≡ (bits self == 0) }
        ensures members { MatchBool result (Empty (bits self)) ((a : ℕ) × has (bits self) a) }
    {
        self.word == 0
    }

    // Is each atom of the set in the other? Where not, there is one that is not.
    pub fn is_subset(self, other: AtomSet) -> bool
        ensures { MatchBool result (bits self ⊆ bits other) ((a : ℕ) × has (bits self) a × (hasb (bits other) a ≡ false)) }
    {
        self.word & other.word == self.word
    }

    // Have the sets an atom in common?
    pub fn intersects(self, other: AtomSet) -> bool
        ensures { MatchBool result ((a : ℕ) × has (bits self) a × has (bits other) a) (Disjoint (bits self) (bits other)) }
    {
        self.word & other.word != 0
    }

    // The least atom of the set, or `None` where it is empty.
    pub fn least(self) -> Option<Atom>
        ensures { MatchOption result (bits self ≡ 0) (λ a. Least (bits self) (index a) × (0 < bits self)) }
    {
        if self.word == 0 {
            None
        } else {
            Some(Atom {
                index: self.word.trailing_zeros() as u8,
            })
        }
    }

    // The greatest atom of the set, or `None` where it is empty.
    pub fn greatest(self) -> Option<Atom>
        ensures { MatchOption result (bits self ≡ 0) (λ a. Greatest (bits self) (index a) × (0 < bits self)) }
    {
        if self.word == 0 {
            None
        } else {
            Some(Atom {
                index: (63 - self.word.leading_zeros()) as u8,
            })
        }
    }

    // The set without its least atom; the empty set stays as it is.
    pub fn without_least(self) -> AtomSet
        ensures { Dropped (bits self) (bits result) }
    {
        if self.word == 0 {
            self
        } else {
            AtomSet {
                word: self.word & (self.word - 1),
            }
        }
    }

    // How many atoms are in the set.
    pub fn len(self) -> u32
        ensures count { result ≡ size (bits self) }
        ensures bound { result ≤ width }
    {
        self.word.count_ones()
    }
}

// Two sets are equal where they have the same atoms, by hand as `==` of `Atom`.
impl PartialEq for AtomSet {
    ghost eq = { on bits nat_eq };

    ghost laws = { Keys.partial_equiv_from_equiv (first_of (Prim.search (comparing, rules), Prim.grind (arith, Self.row.coded.inj))) };

    fn eq(&self, other: &AtomSet) -> bool {
        self.word == other.word
    }
}

impl Eq for AtomSet {
    ghost laws = { first_of (Prim.search (comparing, rules), Prim.grind (arith, Self.row.coded.inj)) };
}
