// Written sheets, and each refusal.
use crate::made::clause;
use std::test::Fail;
use writers::{WriteRefusal, write_sheet};

#[test]
fn a_sheet_in_a_longer_buffer(rt: HostRuntime) {
    let clauses = [clause(0b001, 0b110), clause(0, 0b010), clause(0, 0)];
    let mut out = [b'x'; 26];
    assert_eq!(rt; write_sheet(b"a bc d\n", &clauses, &mut out), Ok(25));
    assert!(rt; out.as_slice() == b"a bc d\nb h h\n. h .\n. . .\nx".as_slice());
}

#[test]
fn a_buffer_that_just_fits(rt: HostRuntime) {
    let clauses = [clause(0b01, 0b10)];
    let mut out = [b'x'; 8];
    assert_eq!(rt; write_sheet(b"a b\n", &clauses, &mut out), Ok(8));
    assert!(rt; out.as_slice() == b"a b\nb h\n".as_slice());
    let mut short = [b'x'; 7];
    assert_eq!(rt;
        write_sheet(b"a b\n", &clauses, &mut short),
        Err(WriteRefusal::Room)
    );
    assert!(rt; short.as_slice() == b"xxxxxxx".as_slice());
}

// Each line mends what the line before was refused for, and all that comes later in the order is wrong.
#[test]
fn refusals_in_their_order(rt: HostRuntime) -> Result<(), Fail> {
    let mut clauses = vec![in rt.alloc(); clause(0b1, 0); 32767]?;
    clauses[0] = clause(0b10, 0);
    let mut out = [b'x'; 3];
    assert_eq!(rt;
        write_sheet(b"a a", &clauses, &mut out),
        Err(WriteRefusal::Names)
    );
    assert_eq!(rt;
        write_sheet(b"a a\nb\n", &clauses, &mut out),
        Err(WriteRefusal::Names)
    );
    assert_eq!(rt;
        write_sheet(b"a a\n", &clauses, &mut out),
        Err(WriteRefusal::Twice)
    );
    assert_eq!(rt;
        write_sheet(b"a\n", &clauses, &mut out),
        Err(WriteRefusal::Atoms)
    );
    clauses[0] = clause(0b1, 0b1);
    assert_eq!(rt;
        write_sheet(b"a\n", &clauses, &mut out),
        Err(WriteRefusal::Atoms)
    );
    clauses[0] = clause(0, 0b1);
    assert_eq!(rt;
        write_sheet(b"a\n", &clauses, &mut out),
        Err(WriteRefusal::Long)
    );
    assert_eq!(rt;
        write_sheet(b"a\n", &clauses[1..], &mut out),
        Err(WriteRefusal::Room)
    );
    assert_eq!(rt; write_sheet(b"a\n", &[], &mut out), Ok(2));
    assert!(rt; out.as_slice() == b"a\nx".as_slice());
    Ok(())
}

#[test]
fn the_longest_sheet(rt: HostRuntime) -> Result<(), Fail> {
    let clauses = vec![in rt.alloc(); clause(0b1, 0); 32766]?;
    let mut out = vec![in rt.alloc(); b'x'; 65535]?;
    assert_eq!(rt; write_sheet(b"ab\n", &clauses, &mut out), Ok(65535));
    assert!(rt; out.ends_with(b"b\nb\n"));
    assert_eq!(rt;
        write_sheet(b"abc\n", &clauses, &mut out),
        Err(WriteRefusal::Long)
    );
    Ok(())
}

#[test]
fn numbers_of_the_refusals(rt: HostRuntime) {
    assert_eq!(rt; u8::from(WriteRefusal::Long), 1);
    assert_eq!(rt; u8::from(WriteRefusal::Names), 2);
    assert_eq!(rt; u8::from(WriteRefusal::Twice), 3);
    assert_eq!(rt; u8::from(WriteRefusal::Room), 13);
    assert_eq!(rt; u8::from(WriteRefusal::Atoms), 14);
}
