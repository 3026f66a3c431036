// Examples of the indexed shelf, alone, beside the flat shelf, and under a case.
use crate::listings::replay_indexed;
use atoms::AtomSet;
use case_tests::tables::one_of;
use histories::{Answer, Call, Entry};
use indexed::{IndexedShelf, ShelfRecord};
use shelves::{FlatShelf, Full, Shelf};
use std::process::Abort;
use std::test::Fail;

// Sets of several chains, the last atom and the empty set among them.
const WORDS: [u64; 6] = [0b0110, 0b1010, 0x8000_0000_0000_0000, 0b0101, 0b1000, 0];

// Asks both shelves about one set.
fn agree<S: Shelf, T: Shelf>(rt: &impl Abort, left: &S, right: &T, word: u64) {
    let set = AtomSet::from_word(word);
    assert_eq!(rt; left.holds_subset_of(set), right.holds_subset_of(set));
}

#[test]
fn agrees_with_the_flat_shelf(rt: HostRuntime) -> Result<(), Fail> {
    let mut sets = [AtomSet::empty(); 6];
    let mut records = [ShelfRecord::blank(); 6];
    let mut flat = FlatShelf::new(&mut sets);
    let mut indexed = IndexedShelf::new(&mut records);
    for word in WORDS {
        let set = AtomSet::from_word(word);
        flat.keep(set)?;
        indexed.keep(set)?;
        for asked in 0..16u64 {
            agree(&rt, &flat, &indexed, asked);
        }
        agree(&rt, &flat, &indexed, 0x8000_0000_0000_0001);
    }
    assert_eq!(rt; indexed.get(3), Some(AtomSet::from_word(0b0101)));
    assert_eq!(rt; indexed.keep(AtomSet::empty()), Err(Full));
    Ok(())
}

#[test]
fn chains_go_back_to_the_first_set(rt: HostRuntime) -> Result<(), Fail> {
    let mut records = [ShelfRecord::blank(); 4];
    let mut shelf = IndexedShelf::new(&mut records);
    assert_eq!(rt; shelf.places(), 4);
    shelf.keep(AtomSet::from_word(0b011))?;
    shelf.keep(AtomSet::from_word(0b101))?;
    assert!(rt; shelf.holds_subset_of(AtomSet::from_word(0b011)));
    assert!(rt; !shelf.holds_subset_of(AtomSet::from_word(0b110)));
    shelf.keep(AtomSet::empty())?;
    assert!(rt; shelf.holds_subset_of(AtomSet::empty()));
    shelf.clear();
    assert_eq!(rt; shelf.len(), 0);
    assert!(rt; !shelf.holds_subset_of(AtomSet::from_word(0b111)));
    assert_eq!(rt; shelf.get(0), None);
    Ok(())
}

// The same run as on the flat shelf, on purpose.
#[test]
fn case_on_an_indexed_shelf(rt: HostRuntime) {
    let clauses = [one_of(0b011), one_of(0b110)];
    let mut records = [ShelfRecord::blank(); 2];
    let mut entries = [Call::Open, Call::Request, Call::Request, Call::Request].map(Entry::from);
    assert_eq!(rt; replay_indexed(&clauses, &mut records, &mut entries), 4);
    assert_eq!(rt;
        entries[1].answer,
        Answer::Explanation(AtomSet::from_word(0b101))
    );
    assert_eq!(rt;
        entries[2].answer,
        Answer::Explanation(AtomSet::from_word(0b010))
    );
    assert_eq!(rt; entries[3].answer, Answer::NoMore);
}
