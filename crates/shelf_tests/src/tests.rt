// Runs of lists and shelves: without places, with one, full, emptied, and at the bound.
use crate::callers::{count_free, count_same, list_all};
use crate::placeless::Placeless;
use atoms::AtomSet;
use lists::{BoundedList, MAX_PLACES};
use shelves::{FlatShelf, Full, Shelf};
use std::process::Abort;
use std::test::Fail;

// The set whose atoms are the digits of a number.
fn atoms(word: u64) -> AtomSet {
    AtomSet::from_word(word)
}

// A shelf on which no set has a place.
fn keeps_nothing<S: Shelf>(rt: &impl Abort, shelf: &mut S) {
    assert_eq!(rt; shelf.places(), 0);
    assert_eq!(rt; shelf.keep(atoms(1)), Err(Full));
    assert_eq!(rt; shelf.len(), 0);
    assert_eq!(rt; shelf.get(0), None);
    assert_eq!(rt; shelf.holds_subset_of(atoms(1)), false);
}

// Three sets fill a shelf of three places, and a fourth finds none.
fn keeps_three<S: Shelf>(rt: &impl Abort, shelf: &mut S, first: AtomSet) -> Result<(), Fail> {
    assert_eq!(rt; shelf.places(), 3);
    assert_eq!(rt; shelf.len(), 0);
    shelf.keep(first)?;
    shelf.keep(atoms(0b0110))?;
    shelf.keep(atoms(0b1000))?;
    assert_eq!(rt; shelf.keep(atoms(0b0001)), Err(Full));
    assert_eq!(rt; shelf.len(), 3);
    assert_eq!(rt; shelf.get(0), Some(first));
    assert_eq!(rt; shelf.get(2), Some(atoms(0b1000)));
    assert_eq!(rt; shelf.get(3), None);
    Ok(())
}

// The sets come one after another, in the order in which they were kept.
fn hands_out<S: Shelf>(rt: &impl Abort, shelf: &S, words: &[u64]) {
    assert!(rt; shelf.iter().map(|set| set.word()).eq(words.iter().copied()));
}

#[test]
fn no_place(rt: HostRuntime) {
    let mut memory: [AtomSet; 0] = [];
    let mut flat = FlatShelf::new(&mut memory);
    keeps_nothing(&rt, &mut flat);
    let mut placeless = Placeless;
    keeps_nothing(&rt, &mut placeless);
}

#[test]
fn one_place(rt: HostRuntime) -> Result<(), Fail> {
    let mut memory = [AtomSet::empty(); 1];
    let mut shelf = FlatShelf::new(&mut memory);
    shelf.keep(atoms(0b011))?;
    assert_eq!(rt; shelf.keep(atoms(0b100)), Err(Full));
    assert_eq!(rt; shelf.get(0), Some(atoms(0b011)));
    assert!(rt; shelf.holds_subset_of(atoms(0b111)));
    assert!(rt; shelf.holds_subset_of(atoms(0b011)));
    assert!(rt; !shelf.holds_subset_of(atoms(0b101)));
    Ok(())
}

#[test]
fn full_and_filled_again(rt: HostRuntime) -> Result<(), Fail> {
    let mut memory = [AtomSet::empty(); 3];
    let mut shelf = FlatShelf::new(&mut memory);
    keeps_three(&rt, &mut shelf, atoms(0b0011))?;
    assert!(rt; shelf.holds_subset_of(atoms(0b1100)));
    assert!(rt; !shelf.holds_subset_of(atoms(0b0101)));
    hands_out(&rt, &shelf, &[0b0011, 0b0110, 0b1000]);
    shelf.clear();
    hands_out(&rt, &shelf, &[]);
    assert!(rt; !shelf.holds_subset_of(atoms(0b1111)));
    keeps_three(&rt, &mut shelf, atoms(0b0101))?;
    assert!(rt; shelf.holds_subset_of(atoms(0b0101)));
    Ok(())
}

#[test]
fn equal_and_free(rt: HostRuntime) -> Result<(), Fail> {
    let mut memory = [AtomSet::empty(); 4];
    let mut shelf = FlatShelf::new(&mut memory);
    shelf.keep(atoms(0b011))?;
    shelf.keep(atoms(0b101))?;
    shelf.keep(atoms(0b011))?;
    assert_eq!(rt; count_same(&shelf, atoms(0b011)), 2);
    assert_eq!(rt; count_same(&shelf, atoms(0b111)), 0);
    assert_eq!(rt; count_free(&shelf), 1);
    assert_eq!(rt; count_free(&Placeless), 0);
    Ok(())
}

#[test]
fn memory_past_the_list(rt: HostRuntime) -> Result<(), Fail> {
    let mut memory = [9; 4];
    list_all(&mut memory, &[1, 2])?;
    assert_eq!(rt; memory, [1, 2, 9, 9]);
    assert_eq!(rt; list_all(&mut memory, &[5; 5]), Err(Full));
    assert_eq!(rt; memory, [1, 2, 9, 9]);
    Ok(())
}

#[test]
fn memory_past_the_bound(rt: HostRuntime) -> Result<(), Fail> {
    let mut memory = vec![in rt.alloc(); 0u8; MAX_PLACES + 1]?;
    let mut list = BoundedList::new(memory.as_mut_slice());
    assert_eq!(rt; list.places(), 1_048_576);
    for _ in 0..MAX_PLACES {
        list.push(1)?;
    }
    assert_eq!(rt; list.push(1), Err(Full));
    assert_eq!(rt; list.len(), 1_048_576);
    assert_eq!(rt; memory.get(MAX_PLACES - 1).copied(), Some(1));
    assert_eq!(rt; memory.get(MAX_PLACES).copied(), Some(0));
    Ok(())
}
