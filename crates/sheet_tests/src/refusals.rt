// Each refusal, and its place before the later ones.
use crate::loading::load;
use formats::SheetFault;

#[test]
fn a_names_line_that_is_not_as_described(rt: HostRuntime) {
    assert_eq!(rt; load(b""), Err(SheetFault::Names));
    assert_eq!(rt; load(b"\n"), Err(SheetFault::Names));
    assert_eq!(rt; load(b"a b"), Err(SheetFault::Names));
    assert_eq!(rt; load(b"a  b\n"), Err(SheetFault::Names));
    assert_eq!(rt; load(b" a\n"), Err(SheetFault::Names));
    assert_eq!(rt; load(b"a \n"), Err(SheetFault::Names));
    assert_eq!(rt; load(b"a B\n"), Err(SheetFault::Names));
    assert_eq!(rt; load(b"a-9\n"), Ok(()));
}

#[test]
fn a_name_that_stands_twice(rt: HostRuntime) {
    assert_eq!(rt; load(b"a b a\n. . .\n"), Err(SheetFault::Twice));
    assert_eq!(rt; load(b"a b ab\n. . .\n"), Ok(()));
}

#[test]
fn a_clause_line_that_is_not_as_described(rt: HostRuntime) {
    assert_eq!(rt; load(b"a b\nh .\nh . \n"), Err(SheetFault::Clause(3)));
    assert_eq!(rt; load(b"a b\n\n"), Err(SheetFault::Clause(2)));
    assert_eq!(rt; load(b"a b\nb\n"), Err(SheetFault::Clause(2)));
    assert_eq!(rt; load(b"a b\nb h .\n"), Err(SheetFault::Clause(2)));
    assert_eq!(rt; load(b"a b\nb  h\n"), Err(SheetFault::Clause(2)));
    assert_eq!(rt; load(b"a b\nb x\n"), Err(SheetFault::Clause(2)));
}

#[test]
fn a_missing_last_byte(rt: HostRuntime) {
    assert_eq!(rt; load(b"a b\nh .\n. b"), Err(SheetFault::Clause(3)));
    assert_eq!(rt; load(b"a b\nh .\n. b\n"), Ok(()));
}

#[test]
fn the_earlier_refusal_comes_first(rt: HostRuntime) {
    assert_eq!(rt; load(b"a a B\n"), Err(SheetFault::Names));
    assert_eq!(rt; load(b"a a\nx x\n"), Err(SheetFault::Twice));
    assert_eq!(rt;
        load(b"a b\nb h\nx x\n. .\ny y\n"),
        Err(SheetFault::Clause(3))
    );
}

#[test]
fn numbers_and_lines_of_refusals(rt: HostRuntime) {
    assert_eq!(rt; u8::from(SheetFault::Long), 1);
    assert_eq!(rt; u8::from(SheetFault::Names), 2);
    assert_eq!(rt; u8::from(SheetFault::Twice), 3);
    assert_eq!(rt; u8::from(SheetFault::Clause(7)), 4);
    assert_eq!(rt; SheetFault::Clause(7).line(), Some(7));
    assert_eq!(rt; SheetFault::Twice.line(), None);
}
