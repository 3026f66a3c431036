// Examples of judging, over a table that asks for one of the atoms 0 and 1, and for 2 where 1 is present.
use crate::{Judged, Reason, ReasonsRefusal};
use atoms::{Atom, AtomSet};
use cases::Case;
use clauses::{Clause, Kind, Origin, Table};
use std::test::Fail;

// Written here too: what stands in a crate's tests serves no other crate.
fn origin(kind: Kind, number: u64) -> Origin {
    Origin { kind, number }
}

// Written here too: what stands in a crate's tests serves no other crate.
fn clause(body: u64, head: u64) -> Clause {
    Clause {
        body: AtomSet::from_word(body),
        head: AtomSet::from_word(head),
        origin: origin(Kind::Table, 0),
    }
}

fn judged<'a, S>(case: &'a Case<S>, word: u64) -> Judged<'a, S> {
    Judged {
        case,
        set: AtomSet::from_word(word),
    }
}

#[test]
fn a_model_that_is_not_minimal(rt: HostRuntime) {
    let records = [clause(0, 0b011), clause(0b010, 0b100)];
    let case = Case::new(Table::new(&records));
    let answers = (
        judged(&case, 0b010).is_model(),
        judged(&case, 0b111).is_model(),
        judged(&case, 0b111).is_minimal(),
        judged(&case, 0b110).is_minimal(),
    );
    let _ = case.into_source();
    assert!(rt; !answers.0);
    assert!(rt; answers.1);
    assert!(rt; !answers.2);
    assert!(rt; answers.3);
}

#[test]
fn reasons_tell_the_first_broken_clause(rt: HostRuntime) -> Result<(), Fail> {
    let one = Atom::new(1).ok_or(1)?;
    let two = Atom::new(2).ok_or(2)?;
    let blank = Reason {
        atom: one,
        origin: origin(Kind::Sheet, 7),
    };
    let records = [clause(0, 0b011), clause(0b010, 0b100)];
    let mut case = Case::new(Table::new(&records));
    let _ = case.observe(1, true);
    let mut given = [blank; 3];
    let count = judged(&case, 0b110).reasons(&mut given);
    let _ = case.into_source();
    assert_eq!(rt; count, Ok(2));
    let observed = Reason {
        atom: one,
        origin: origin(Kind::Observation, 0),
    };
    let implied = Reason {
        atom: two,
        origin: origin(Kind::Table, 1),
    };
    assert_eq!(rt; given[0], observed);
    assert_eq!(rt; given[1], implied);
    assert_eq!(rt; given[2], blank);
    Ok(())
}

#[test]
fn refusals_come_in_order(rt: HostRuntime) {
    let records = [clause(0, 0b011), clause(0b010, 0b100)];
    let case = Case::new(Table::new(&records));
    let answers = (
        judged(&case, 0b010).reasons(&mut []),
        judged(&case, 0b111).reasons(&mut []),
        judged(&case, 0b110).reasons(&mut []),
    );
    let _ = case.into_source();
    assert_eq!(rt; answers.0, Err(ReasonsRefusal::NoModel));
    assert_eq!(rt; answers.1, Err(ReasonsRefusal::NoReason));
    assert_eq!(rt; answers.2, Err(ReasonsRefusal::TooFewRecords));
}

// Each of two atoms is there for the other: both have a reason, and yet the empty set is a model.
#[test]
fn reasons_do_not_make_a_model_minimal(rt: HostRuntime) -> Result<(), Fail> {
    let mut given = [Reason {
        origin: origin(Kind::Sheet, 7),
        ..Reason::blank()
    }; 2];
    let records = [clause(0b01, 0b10), clause(0b10, 0b01)];
    let case = Case::new(Table::new(&records));
    let both = judged(&case, 0b11);
    let count = both.reasons(&mut given);
    let minimal = both.is_minimal();
    let _ = case.into_source();
    assert_eq!(rt; count, Ok(2));
    assert_eq!(rt; given[0].origin.number, 1);
    assert_eq!(rt; given[1].origin.number, 0);
    assert!(rt; !minimal);
    Ok(())
}
