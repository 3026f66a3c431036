// Written reports.
use crate::alone::report_alone;
use crate::made::NAMES;
use atoms::AtomSet;
use shelves::{FlatShelf, Shelf};
use std::test::Fail;
use writers::{WriteRefusal, write_report};

#[test]
fn complete_or_not(rt: HostRuntime) -> Result<(), Fail> {
    let mut memory = [AtomSet::empty(); 2];
    let mut shelf = FlatShelf::new(&mut memory);
    shelf.keep(AtomSet::from_word(0b101))?;
    shelf.keep(AtomSet::empty())?;
    let mut out = [b'x'; 24];
    assert_eq!(rt; write_report(b"a b c\n", &shelf, true, &mut out), Ok(22));
    assert!(rt; out.as_slice() == b"a b c\n1 0 1\n0 0 0\nend\nxx".as_slice());
    assert_eq!(rt; write_report(b"a b c\n", &shelf, false, &mut out), Ok(23));
    assert!(rt; out.as_slice() == b"a b c\n1 0 1\n0 0 0\nmore\nx".as_slice());
    Ok(())
}

#[test]
fn one_set(rt: HostRuntime) {
    let mut out = [b'x'; 13];
    assert_eq!(rt;
        report_alone(b"a b\n", AtomSet::from_word(0b10), &mut out),
        Ok(12)
    );
    assert!(rt; out.as_slice() == b"a b\n0 1\nend\nx".as_slice());
}

#[test]
fn a_buffer_that_just_fits(rt: HostRuntime) {
    let mut memory: [AtomSet; 0] = [];
    let shelf = FlatShelf::new(&mut memory);
    let mut out = [b'x'; 6];
    assert_eq!(rt; write_report(b"a\n", &shelf, true, &mut out), Ok(6));
    assert!(rt; out.as_slice() == b"a\nend\n".as_slice());
    assert_eq!(rt;
        write_report(b"b\n", &shelf, false, &mut out),
        Err(WriteRefusal::Room)
    );
    assert!(rt; out.as_slice() == b"a\nend\n".as_slice());
}

#[test]
fn refusals_in_their_order(rt: HostRuntime) -> Result<(), Fail> {
    let mut memory = [AtomSet::empty(); 1];
    let mut shelf = FlatShelf::new(&mut memory);
    shelf.keep(AtomSet::from_word(0b10))?;
    let mut out = [b'x'; 1];
    assert_eq!(rt;
        write_report(b"a a", &shelf, true, &mut out),
        Err(WriteRefusal::Names)
    );
    assert_eq!(rt;
        write_report(b"a a\n", &shelf, true, &mut out),
        Err(WriteRefusal::Twice)
    );
    assert_eq!(rt;
        write_report(b"a\n", &shelf, true, &mut out),
        Err(WriteRefusal::Atoms)
    );
    assert_eq!(rt;
        write_report(b"a b\n", &shelf, true, &mut out),
        Err(WriteRefusal::Room)
    );
    assert_eq!(rt; out[0], b'x');
    Ok(())
}

#[test]
fn many_sets_over_sixty_four_names(rt: HostRuntime) -> Result<(), Fail> {
    let mut memory = [AtomSet::empty(); 256];
    let mut shelf = FlatShelf::new(&mut memory);
    for k in 0..256 {
        shelf.keep(AtomSet::from_word(k << 56))?;
    }
    let mut out = vec![in rt.alloc(); b'x'; 32965]?;
    assert_eq!(rt; write_report(NAMES, &shelf, true, &mut out), Ok(32964));
    assert!(rt; out.starts_with(NAMES));
    assert!(rt; out.ends_with(b"0 0 1 1 1 1 1 1 1 1\nend\nx"));
    Ok(())
}
