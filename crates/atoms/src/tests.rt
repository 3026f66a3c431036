// Examples of atoms and sets.
use crate::{Atom, AtomSet};
use std::test::Fail;

#[test]
fn atoms_end_at_63(rt: HostRuntime) {
    assert!(rt; Atom::new(63).is_some());
    assert!(rt; Atom::new(64).is_none());
}

#[test]
fn first_and_last_atom(rt: HostRuntime) -> Result<(), Fail> {
    let ends = AtomSet::from_word(0x8000_0000_0000_0001);
    let Some(least) = ends.least() else {
        return Err(Fail::new("the set has a least atom"));
    };
    let Some(greatest) = ends.greatest() else {
        return Err(Fail::new("the set has a greatest atom"));
    };
    assert_eq!(rt; least.number(), 0);
    assert_eq!(rt; greatest.number(), 63);
    assert_eq!(rt; ends.len(), 2);
    assert_eq!(rt; ends.without(greatest).word(), 1);
    assert_eq!(rt; ends.without_least().word(), 1 << 63);
    assert!(rt; AtomSet::empty().least().is_none());
    Ok(())
}

#[test]
fn sets_combine(rt: HostRuntime) {
    let left = AtomSet::from_word(0b0110);
    let right = AtomSet::from_word(0b0011);
    assert_eq!(rt; left.union(right).word(), 0b0111);
    assert_eq!(rt; left.intersection(right).word(), 0b0010);
    assert_eq!(rt; left.difference(right).word(), 0b0100);
    assert!(rt; left.intersects(right));
    assert!(rt; !left.is_subset(right));
    assert!(rt; left.intersection(right).is_subset(right));
}
