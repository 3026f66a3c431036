// What a sheet means once it is loaded.
use atoms::{Atom, AtomSet};
use clauses::Source;
use formats::SheetFault;
use sheets::{Sheet, SheetLine};
use std::test::Fail;

const EXAMPLE: &[u8] =
    b"nopic noaud psu tuner card amp\nh . . . . .\nb . h h h .\n. b . h . h\n. h b . . .\n. . . b b .\n";

#[test]
fn the_example_has_its_names(rt: HostRuntime) -> Result<(), Fail> {
    let mut sheet = Sheet::empty();
    assert_eq!(rt; sheet.load(EXAMPLE), Ok(()));
    assert_eq!(rt; sheet.name_count(), 6);
    let Some(atom) = sheet.atom_of(b"tuner") else {
        return Err(Fail::new("tuner has an atom"));
    };
    assert_eq!(rt; atom.number(), 3);
    assert!(rt; sheet.name_of(atom) == Some(b"tuner".as_slice()));
    assert!(rt; sheet.atom_of(b"tune").is_none());
    let Some(last) = Atom::new(63) else {
        return Err(Fail::new("63 is an atom"));
    };
    assert!(rt; sheet.name_of(last).is_none());
    Ok(())
}

#[test]
fn the_example_has_its_clauses(rt: HostRuntime) -> Result<(), Fail> {
    let mut sheet = Sheet::empty();
    assert_eq!(rt; sheet.load(EXAMPLE), Ok(()));
    assert_eq!(rt; sheet.clause_count(), 5);
    let Some(clause) = sheet.clause_at(3) else {
        return Err(Fail::new("line 3 is a clause"));
    };
    assert_eq!(rt; clause.body.word(), 0b000001);
    assert_eq!(rt; clause.head.word(), 0b011100);
    assert_eq!(rt; clause.origin.number, 3);
    assert!(rt; sheet.clause_at(1).is_none());
    assert!(rt; sheet.clause_at(7).is_none());
    Ok(())
}

#[test]
fn the_example_tells_its_first_broken_clause(rt: HostRuntime) -> Result<(), Fail> {
    let mut sheet = Sheet::empty();
    assert_eq!(rt; sheet.load(EXAMPLE), Ok(()));
    let Some(first) = sheet.first_broken(AtomSet::empty()) else {
        return Err(Fail::new("line 2 is broken"));
    };
    assert_eq!(rt; first.origin.number, 2);
    let Some(next) = sheet.first_broken(AtomSet::from_word(0b011001)) else {
        return Err(Fail::new("line 6 is broken"));
    };
    assert_eq!(rt; next.origin.number, 6);
    assert!(rt; sheet.first_broken(AtomSet::from_word(0b001001)).is_none());
    Ok(())
}

#[test]
fn no_clause_lines(rt: HostRuntime) {
    let mut sheet = Sheet::empty();
    assert_eq!(rt; sheet.load(b"a\n"), Ok(()));
    assert_eq!(rt; sheet.clause_count(), 0);
    assert!(rt; sheet.first_broken(AtomSet::empty()).is_none());
}

#[test]
fn a_refused_text_leaves_the_sheet(rt: HostRuntime) {
    let mut sheet = Sheet::empty();
    assert_eq!(rt; sheet.load(EXAMPLE), Ok(()));
    assert_eq!(rt; sheet.load(b"a\nx\n"), Err(SheetFault::Clause(2)));
    assert_eq!(rt; sheet.name_count(), 6);
    assert_eq!(rt; sheet.clause_count(), 5);
}

#[test]
fn the_reader_hands_out_each_line(rt: HostRuntime) -> Result<(), Fail> {
    let mut sheet = Sheet::empty();
    assert_eq!(rt; sheet.load(b"a b\nb h\n"), Ok(()));
    let mut lines = sheet.lines();
    match lines.next() {
        Some(SheetLine::Names { text, number }) => assert!(rt;
            text == b"a b\n".as_slice() && number == 1
        ),
        _ => return Err(Fail::new("the names line comes first")),
    }
    match lines.next() {
        Some(SheetLine::Clause { text, number }) => assert!(rt;
            text == b"b h\n".as_slice() && number == 2
        ),
        _ => return Err(Fail::new("the clause line comes next")),
    }
    assert!(rt; lines.next().is_none());
    assert!(rt; Sheet::empty().lines().next().is_none());
    Ok(())
}
