// Clauses in words, on a page.
ghost use Rattle.std.specs.Prelude.{◌≡◌, ◌++◌, [], IfSome, OnOk, slice_index_or};
ghost use Rattle.std.specs.List.{flat_map};
ghost use Rattle.atoms.specs.Atoms.{bits, index};
ghost use Rattle.sheets.specs.Sheets.{clauses, names};
ghost use Rattle.wording.specs.Pages.{Adds, page_sheet, page_text};
ghost use Rattle.wording.specs.Words.{clause_text, clause_words, listed_or, names_of};

use atoms::{Atom, AtomSet};
use clauses::Clause;
use sheets::Sheet;
use std::alloc::{AllocError, Global};
use std::fmt::Display;

// A page: a text that is being written about a sheet.
#[derive(Drop)]
pub struct Page<'a> {
    sheet: Sheet<'a>,
    text: Vec<u8>,
}

impl<'a> Page<'a> {
    // An empty page about a sheet.
    pub fn new(heap: Global, sheet: &Sheet<'a>) -> Page<'a>
        ensures { (page_sheet result ≡ sheet.now) × (page_text result ≡ []) }
    {
        Page::over(Vec::new(heap), sheet)
    }

    // A page about a sheet that begins with a text.
    pub fn over(text: Vec<u8>, sheet: &Sheet<'a>) -> Page<'a>
        ensures { (page_sheet result ≡ sheet.now) × (page_text result ≡ text.items) }
    {
        Page {
            sheet: *sheet,
            text,
        }
    }

    // The sheet that the page is about.
    pub fn sheet(&self) -> Sheet<'a>
        ensures { result ≡ page_sheet self.now }
    {
        self.sheet
    }

    // The text.
    pub fn into_text(self) -> Vec<u8>
        ensures { result.items ≡ page_text self.entry }
    {
        let Page { text, .. } = self;
        text
    }

    // Adds words.
    pub fn add(&mut self, words: &[u8]) -> Result<(), AllocError>
        ensures { Adds result self.old self.new words.now }
    {
        self.text.extend_from_slice(words)
    }

    // Adds what `write!` is given.
    pub fn write_fmt<D: Display + Drop>(&mut self, value: D) -> Result<(), AllocError>
        ensures added { OnOk result (IfSome (D.output value) (λ words. page_text self.new ≡ page_text self.old ++ words)) }
        ensures same { page_sheet self.new ≡ page_sheet self.old }
    {
        let heap = *self.text.allocator();
        let words = String::format(heap, value)?;
        self.add(words.as_bytes())
    }

    // Adds the name of an atom, where it has one.
    fn add_name(&mut self, atom: Atom) -> Result<(), AllocError>
        ensures { Adds result self.old self.new (slice_index_or (names (page_sheet self.old)) (index atom) []) }
    {
        match self.sheet.name_of(atom) {
            Some(name) => self.add(name),
            None => Ok(()),
        }
    }

    // Adds the names of the atoms of a set, with `gap` between two of them, or `none` where there are none.
    pub fn add_names(&mut self, set: AtomSet, none: &[u8], gap: &[u8]) -> Result<(), AllocError>
        ensures { Adds result self.old self.new
            (listed_or none.now gap.now (names_of (bits set) 0 (names (page_sheet self.old)))) }
    {
        let count = self.sheet.name_count();
        let mut named = set.iter().filter(|atom| (atom.number() as usize) < count);
        let Some(first) = named.next() else {
            return self.add(none);
        };
        self.add_name(first)?;
        for atom in named {
            self.add(gap)?;
            self.add_name(atom)?;
        }
        Ok(())
    }

    // Adds a clause in words, as `a & b -> c | d`: an empty body is `true`, and an empty head is `false`.
    pub fn add_clause(&mut self, clause: &Clause) -> Result<(), AllocError>
        ensures { Adds result self.old self.new (clause_words (names (page_sheet self.old)) clause.now) }
    {
        self.add_names(clause.body, b"true", b" & ")?;
        self.add(b" -> ")?;
        self.add_names(clause.head, b"false", b" | ")
    }

    // Adds a clause on a line of its own, after the number of its line in the sheet.
    fn add_line(&mut self, clause: &Clause) -> Result<(), AllocError>
        ensures { Adds result self.old self.new (clause_text (names (page_sheet self.old)) clause.now) }
    {
        let number = clause.origin.number;
        write!(self, "line {number}: ")?;
        self.add_clause(clause)?;
        self.add(b"\n")
    }

    // Adds each clause of the sheet on a line of its own.
    pub(crate) fn add_clauses(&mut self) -> Result<(), AllocError>
        ensures { OnOk result (page_text self.new
            ≡ page_text self.old ++ flat_map (clause_text (names (page_sheet self.old))) (clauses (page_sheet self.old))) }
    {
        for clause in self.sheet.clauses() {
            self.add_line(&clause)?;
        }
        Ok(())
    }
}
