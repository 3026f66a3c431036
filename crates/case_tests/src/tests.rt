// Examples over a table that asks for one of the atoms 0 and 1, and for one of 1 and 2.
use crate::tables::one_of;
use atoms::AtomSet;
use cases::{Case, ObserveRefusal, RequestRefusal, WithdrawRefusal};
use clauses::Table;
use histories::{Answer, Call, Entry, replay};
use shelves::{FlatShelf, Shelf};

#[test]
fn listing_hands_out_each_explanation_once(rt: HostRuntime) {
    let records = [one_of(0b011), one_of(0b110)];
    let mut memory = [AtomSet::empty(); 2];
    let mut shelf = FlatShelf::new(&mut memory);
    let mut entries = [
        Call::Open,
        Call::Request,
        Call::Request,
        Call::Request,
        Call::Close,
        Call::Request,
    ]
    .map(Entry::from);
    let (_, made) = replay(Table::new(&records), &mut shelf, &mut entries);
    assert_eq!(rt; made, 5);
    assert_eq!(rt;
        entries[1].answer,
        Answer::Explanation(AtomSet::from_word(0b101))
    );
    assert_eq!(rt;
        entries[2].answer,
        Answer::Explanation(AtomSet::from_word(0b010))
    );
    assert_eq!(rt; entries[3].answer, Answer::NoMore);
    assert_eq!(rt; entries[5].answer, Answer::Pending);
}

#[test]
fn observations_stand_until_they_are_withdrawn(rt: HostRuntime) {
    let records = [one_of(0b011), one_of(0b110)];
    let mut memory = [AtomSet::empty(); 1];
    let mut shelf = FlatShelf::new(&mut memory);
    let mut entries = [
        Call::Observe(1, false),
        Call::Observe(1, true),
        Call::Observe(64, true),
        Call::Open,
        Call::Request,
        Call::Request,
        Call::Close,
        Call::Withdraw,
        Call::Withdraw,
        Call::Open,
        Call::Request,
        Call::Request,
    ]
    .map(Entry::from);
    let (_, made) = replay(Table::new(&records), &mut shelf, &mut entries);
    assert_eq!(rt; made, 12);
    assert_eq!(rt;
        entries[1].answer,
        Answer::ObserveRefused(ObserveRefusal::AlreadyObserved)
    );
    assert_eq!(rt;
        entries[2].answer,
        Answer::ObserveRefused(ObserveRefusal::NoSuchAtom)
    );
    assert_eq!(rt;
        entries[4].answer,
        Answer::Explanation(AtomSet::from_word(0b101))
    );
    assert_eq!(rt; entries[5].answer, Answer::NoMore);
    assert_eq!(rt;
        entries[8].answer,
        Answer::WithdrawRefused(WithdrawRefusal::NothingObserved)
    );
    assert_eq!(rt;
        entries[11].answer,
        Answer::RequestRefused(RequestRefusal::ShelfFull)
    );
}

#[test]
fn request_wants_the_shelf_of_its_listing(rt: HostRuntime) {
    let records = [one_of(0b011), one_of(0b110)];
    let mut memory = [AtomSet::empty(); 1];
    let mut shelf = FlatShelf::new(&mut memory);
    let mut listing = Case::new(Table::new(&records)).open();
    assert_eq!(rt;
        listing.request(&mut shelf),
        Ok(Some(AtomSet::from_word(0b101)))
    );
    assert_eq!(rt; listing.request(&mut shelf), Err(RequestRefusal::ShelfFull));
    shelf.clear();
    assert_eq!(rt;
        listing.request(&mut shelf),
        Err(RequestRefusal::WrongShelf)
    );
    assert_eq!(rt; listing.given(), 1);
    let case = listing.close();
    assert_eq!(rt; case.standing().len(), 0);
}
