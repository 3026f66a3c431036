// What stands on a page once words are added to it, and how a refusal is told.
use crate::{Page, refusal_words};
use atoms::AtomSet;
use sheets::Sheet;
use std::test::Fail;

#[test]
fn names_with_gaps_and_none(rt: HostRuntime) -> Result<(), Fail> {
    let mut sheet = Sheet::empty();
    assert_eq!(rt; sheet.load(b"a bc d\n. . .\n"), Ok(()));
    let mut page = Page::new(rt.alloc(), &sheet);
    page.add_names(AtomSet::from_word(0b101), b"nothing", b" + ")?;
    page.add(b"; ")?;
    page.add_names(AtomSet::empty(), b"nothing", b" + ")?;
    page.add(b"; ")?;
    page.add_names(AtomSet::from_word(0b11000), b"nothing", b" + ")?;
    assert_eq!(rt; page.sheet().name_count(), 3);
    assert!(rt; page.into_text().as_slice() == b"a + d; nothing; nothing".as_slice());
    Ok(())
}

#[test]
fn a_clause_after_a_number(rt: HostRuntime) -> Result<(), Fail> {
    let mut sheet = Sheet::empty();
    assert_eq!(rt; sheet.load(b"a b c\nb h h\n"), Ok(()));
    let Some(clause) = sheet.clause_at(2) else {
        return Err(Fail::new("line 2 is a clause"));
    };
    let mut page = Page::new(rt.alloc(), &sheet);
    let number = 7;
    write!(page, "clause {number}: ")?;
    page.add_clause(&clause)?;
    assert!(rt; page.into_text().as_slice() == b"clause 7: a -> b | c".as_slice());
    Ok(())
}

#[test]
fn words_after_a_text(rt: HostRuntime) -> Result<(), Fail> {
    let mut sheet = Sheet::empty();
    assert_eq!(rt; sheet.load(b"a b c\n. . .\n"), Ok(()));
    let text = b"before: ".to_vec(rt.alloc())?;
    let mut page = Page::over(text, &sheet);
    page.add_names(AtomSet::from_word(0b101), b"nothing", b", ")?;
    assert_eq!(rt; page.sheet().name_count(), 3);
    assert!(rt; page.into_text().as_slice() == b"before: a, c".as_slice());
    Ok(())
}

#[test]
fn refusals_with_and_without_a_line(rt: HostRuntime) -> Result<(), Fail> {
    let lined = refusal_words(rt.alloc(), 4, Some(12))?;
    assert!(rt; lined.as_slice() == b"refused 4 line 12\n".as_slice());
    let plain = refusal_words(rt.alloc(), 13, None)?;
    assert!(rt; plain.as_slice() == b"refused 13\n".as_slice());
    Ok(())
}
