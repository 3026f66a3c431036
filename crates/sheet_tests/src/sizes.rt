// Sizes: the longest names, the most names, and the longest text.
use crate::loading::load;
use formats::SheetFault;
use sheets::Sheet;
use std::alloc::{AllocError, Global};
use std::test::Fail;

// A names line of `count` names, each of two bytes.
fn names(heap: Global, count: u8) -> Result<Vec<u8>, AllocError> {
    let mut line = Vec::new(heap);
    for k in 0..count {
        if k > 0 {
            line.push(b' ')?;
        }
        line.push(b'a' + k % 16)?;
        line.push(b'a' + k / 16)?;
    }
    line.push(b'\n')?;
    Ok(line)
}

// A text of this front and then the clause line `b`, so many times.
fn clauses(heap: Global, front: &[u8], count: u16) -> Result<Vec<u8>, AllocError> {
    let mut text = Vec::new(heap);
    text.extend_from_slice(front)?;
    for _ in 0..count {
        text.extend_from_slice(b"b\n")?;
    }
    Ok(text)
}

#[test]
fn names_of_sixteen_bytes(rt: HostRuntime) {
    assert_eq!(rt; load(b"abcdefghijklmnop\n"), Ok(()));
    assert_eq!(rt; load(b"abcdefghijklmnopq\n"), Err(SheetFault::Names));
}

#[test]
fn sixty_four_names(rt: HostRuntime) -> Result<(), Fail> {
    let most = names(rt.alloc(), 64)?;
    let mut sheet = Sheet::empty();
    assert_eq!(rt; sheet.load(&most), Ok(()));
    assert_eq!(rt; sheet.name_count(), 64);
    let more = names(rt.alloc(), 65)?;
    assert_eq!(rt; load(&more), Err(SheetFault::Names));
    Ok(())
}

#[test]
fn the_longest_text(rt: HostRuntime) -> Result<(), Fail> {
    let longest = clauses(rt.alloc(), b"ab\n", 32766)?;
    assert_eq!(rt; longest.len(), 65535);
    assert_eq!(rt; load(&longest), Ok(()));
    let longer = clauses(rt.alloc(), b"a\n", 32767)?;
    assert_eq!(rt; longer.len(), 65536);
    assert_eq!(rt; load(&longer), Err(SheetFault::Long));
    Ok(())
}

#[test]
fn a_long_text_is_refused_before_its_names(rt: HostRuntime) -> Result<(), Fail> {
    let wrong = clauses(rt.alloc(), b"A\n", 32767)?;
    assert_eq!(rt; load(&wrong), Err(SheetFault::Long));
    let short = clauses(rt.alloc(), b"A\n", 32766)?;
    assert_eq!(rt; load(&short), Err(SheetFault::Names));
    Ok(())
}
