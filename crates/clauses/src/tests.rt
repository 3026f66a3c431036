// Examples of clauses and tables.
use crate::clauses::Clause;
use crate::origins::{Kind, Origin};
use crate::sources::Source;
use crate::tables::Table;
use atoms::AtomSet;
use std::test::Fail;

// Written here too: what stands in a crate's tests serves no other crate.
fn clause(body: u64, head: u64) -> Clause {
    Clause {
        body: AtomSet::from_word(body),
        head: AtomSet::from_word(head),
        origin: Origin {
            kind: Kind::Sheet,
            number: 7,
        },
    }
}

#[test]
fn broken_where_the_body_holds_and_the_head_does_not(rt: HostRuntime) {
    let implication = clause(0b001, 0b110);
    assert!(rt; implication.is_broken_by(AtomSet::from_word(0b001)));
    assert!(rt; !implication.is_broken_by(AtomSet::from_word(0b011)));
    assert!(rt; !implication.is_broken_by(AtomSet::from_word(0b000)));
    assert!(rt; clause(0, 0).is_broken_by(AtomSet::empty()));
}

#[test]
fn a_table_tells_the_first_broken_clause_by_its_place(rt: HostRuntime) -> Result<(), Fail> {
    let records = [clause(0, 0b001), clause(0b001, 0b010), clause(0b001, 0b100)];
    let table = Table::new(&records);
    let Some(broken) = table.first_broken(AtomSet::from_word(0b001)) else {
        return Err(Fail::new("the set breaks two clauses"));
    };
    assert_eq!(rt; broken.head.word(), 0b010);
    assert_eq!(rt; broken.origin.kind, Kind::Table);
    assert_eq!(rt; broken.origin.number, 1);
    assert!(rt; table.first_broken(AtomSet::from_word(0b111)).is_none());
    Ok(())
}
