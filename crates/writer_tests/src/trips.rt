// Round trips.
use crate::made::clause;
use clauses::{Clause, Kind, Origin};
use formats::SheetFault;
use round_trips::{RereadRefusal, RewriteRefusal, reread, rewrite};
use writers::WriteRefusal;

// The same clause, as it is read from a line of a sheet.
fn on_line(clause: Clause, number: u64) -> Clause {
    Clause {
        origin: Origin {
            kind: Kind::Sheet,
            number,
        },
        ..clause
    }
}

#[test]
fn read_and_written(rt: HostRuntime) {
    let blank = clause(0, 0);
    let mut places = [blank; 3];
    let mut out = [b'x'; 13];
    assert_eq!(rt; rewrite(b"a b\nb h\n. b\n", &mut places, &mut out), Ok(12));
    assert!(rt; out.as_slice() == b"a b\nb h\n. b\nx".as_slice());
    assert_eq!(rt; places[0], on_line(clause(0b01, 0b10), 2));
    assert_eq!(rt; places[1], on_line(clause(0b10, 0), 3));
    assert_eq!(rt; places[2], blank);
}

#[test]
fn not_written_again(rt: HostRuntime) {
    let mut places = [clause(0, 0); 1];
    let mut out = [b'x'; 8];
    let refused = RewriteRefusal::Load(SheetFault::Clause(3));
    assert_eq!(rt;
        rewrite(b"a b\nb h\nb\n", &mut places, &mut out),
        Err(refused)
    );
    assert_eq!(rt; u8::from(refused), 4);
    assert_eq!(rt; refused.line(), Some(3));
    assert_eq!(rt;
        rewrite(b"a\nb\nh\n.\nh\n", &mut places, &mut out),
        Err(RewriteRefusal::Places)
    );
    assert_eq!(rt;
        rewrite(b"abcd e\nb h\n", &mut places, &mut out),
        Err(RewriteRefusal::Room)
    );
    assert_eq!(rt; u8::from(RewriteRefusal::Room), 13);
    assert_eq!(rt; places[0], clause(0, 0));
    assert!(rt; out.as_slice() == b"xxxxxxxx".as_slice());
}

#[test]
fn written_and_read(rt: HostRuntime) {
    let clauses = [clause(0b01, 0b10), clause(0, 0b11)];
    let blank = clause(0, 0);
    let mut again = [blank; 3];
    let mut text = [b'x'; 13];
    assert_eq!(rt; reread(b"a b\n", &clauses, &mut text, &mut again), Ok(2));
    assert!(rt; text.as_slice() == b"a b\nb h\nh h\nx".as_slice());
    assert_eq!(rt; again[0], on_line(clauses[0], 2));
    assert_eq!(rt; again[1], on_line(clauses[1], 3));
    assert_eq!(rt; again[2], blank);
}

#[test]
fn not_read_again(rt: HostRuntime) {
    let clauses = [clause(0b01, 0b10), clause(0b100, 0)];
    let mut again = [clause(0, 0); 2];
    let mut text = [b'x'; 8];
    let refused = RereadRefusal::Write(WriteRefusal::Atoms);
    assert_eq!(rt;
        reread(b"a b\n", &clauses, &mut text, &mut again[..1]),
        Err(RereadRefusal::Places)
    );
    assert_eq!(rt;
        reread(b"a b\n", &clauses, &mut text, &mut again),
        Err(refused)
    );
    assert_eq!(rt; u8::from(refused), 14);
    assert_eq!(rt; again[0], clause(0, 0));
    assert!(rt; text.as_slice() == b"xxxxxxxx".as_slice());
}
