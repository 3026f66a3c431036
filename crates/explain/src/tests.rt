// What is printed for some texts.
use explaining::explain;
use std::alloc::{AllocError, Global};
use std::process::Abort;
use std::test::Fail;

// Adds a line of words that have one byte each.
fn add_line(text: &mut Vec<u8>, words: &[u8]) -> Result<(), AllocError> {
    for word in words {
        text.push(*word)?;
        text.push(b' ')?;
    }
    if let Some(end) = text.last_mut() {
        *end = b'\n';
    }
    Ok(())
}

// A sheet that asks for the first or the second name, for the third or the fourth, and so on: each pair doubles the
// number of explanations.
fn pairs(heap: Global, names: &[u8]) -> Result<Vec<u8>, AllocError> {
    let mut text = Vec::new(heap);
    add_line(&mut text, names)?;
    for row in 0..names.len() / 2 {
        let values: Vec<u8> = (0..names.len())
            .map(|k| if k / 2 == row { b'h' } else { b'.' })
            .collect(heap)?;
        add_line(&mut text, &values)?;
    }
    Ok(text)
}

fn check_printed(rt: &impl Abort, heap: Global, text: &[u8], expected: &[u8]) -> Result<(), Fail> {
    let printed = explain(heap, text)?;
    assert!(rt; printed.as_slice() == expected);
    Ok(())
}

#[test]
fn a_text_that_is_no_sheet(rt: HostRuntime) -> Result<(), Fail> {
    check_printed(&rt, rt.alloc(), b"", b"refused 2\n")?;
    check_printed(&rt, rt.alloc(), b"a b a\n", b"refused 3\n")?;
    check_printed(&rt, rt.alloc(), b"a b\nh h\nh h h\n", b"refused 4 line 3\n")
}

#[test]
fn one_explanation_or_none(rt: HostRuntime) -> Result<(), Fail> {
    check_printed(&rt, rt.alloc(), b"a b\n", b"a b\n0 0\nend\n")?;
    check_printed(&rt, rt.alloc(), b"a b\nh .\nb .\n", b"a b\nend\n")
}

#[test]
fn as_many_as_are_printed(rt: HostRuntime) -> Result<(), Fail> {
    let text = pairs(rt.alloc(), b"abcdefghijklmnop")?;
    let printed = explain(rt.alloc(), &text)?;
    assert_eq!(rt; printed.len(), 32 + 256 * 32 + 4);
    assert!(rt; printed.ends_with(b"end\n"));
    Ok(())
}

#[test]
fn more_than_are_printed(rt: HostRuntime) -> Result<(), Fail> {
    let text = pairs(rt.alloc(), b"abcdefghijklmnopqr")?;
    let printed = explain(rt.alloc(), &text)?;
    assert_eq!(rt; printed.len(), 36 + 256 * 36 + 5);
    assert!(rt; printed.ends_with(b"more\n"));
    Ok(())
}
