// Looking up names, atoms and clauses in a sheet.
ghost use Rattle.std.specs.Prelude.{◌≡◌, ◌*◌, ◌<◌, ◌≤◌, [], length, MatchOption, slice_index_or};
ghost use Rattle.atoms.specs.Atoms.{index};
ghost use Rattle.formats.specs.Format.{clause_line, line, longest, most_names};
ghost use Rattle.formats.specs.Places.{FirstAt, Lacks, WordIs, values};
ghost use Rattle.sheets.specs.Meaning.{NoneOnLine, OnLine, row_clause};
ghost use Rattle.sheets.specs.Sheets.{clauses, names, rows};

use crate::Sheet;
use atoms::{Atom, AtomSet};
use clauses::{Clause, Kind, Origin};
use formats::{find_word, word_at};

impl<'a> Sheet<'a> {
    // The atom of a name.
    pub fn atom_of(&self, name: &[u8]) -> Option<Atom>
        ensures { MatchOption result
            (Lacks (names self.now) name.now)
            (λ a. FirstAt (names self.now) name.now (index a)) }
    {
        if self.layout.names == 0 {
            return None;
        }
        let k = find_word(self.text, name)?;
        Atom::new(k as u8)
    }

    // The name of an atom, as a part of the text.
    pub fn name_of(&self, atom: Atom) -> Option<&'a [u8]>
        ensures { MatchOption result
            (length (names self.now) ≤ index atom)
            (λ w. WordIs (names self.now) (index atom) w.now) }
    {
        if self.layout.names == 0 {
            return None;
        }
        word_at(self.text, atom.number() as usize)
    }

    // The names line with its byte 10, where there are names.
    pub fn names_line(&self) -> Option<&'a [u8]>
        ensures { MatchOption result
            (names self.now ≡ [])
            (λ part. (1 ≤ length (names self.now)) × (part.now ≡ line (names self.now))) }
    {
        if self.layout.names == 0 {
            None
        } else {
            Some(&self.text[0..self.layout.start])
        }
    }

    // The clause on a line, by the line's number.
    pub fn clause_at(&self, number: usize) -> Option<Clause>
        ensures { MatchOption result (NoneOnLine (clauses self.now) number) (OnLine (clauses self.now) number) }
    {
        let i = number.checked_sub(2)?;
        if i < self.layout.clauses {
            Some(self.clause(i))
        } else {
            None
        }
    }

    // Clause line `i`, from 0, with its byte 10.
    pub(crate) fn row(&self, i: usize) -> &'a [u8]
        requires { i < self.now.layout.clauses }
        ensures part { result.now ≡ clause_line (slice_index_or (rows self.now) i []) }
        ensures values { values self.now.layout.names result.now ≡ slice_index_or (rows self.now) i [] }
        ensures size { length result.now ≡ 2 * self.now.layout.names }
    {
        let size = 2 * self.layout.names;
        let at = self.layout.start + i * size;
        &self.text[at..at + size]
    }

    // The clause of clause line `i`, from 0.
    pub(crate) fn clause(&self, i: usize) -> Clause
        requires { i < self.now.layout.clauses }
        ensures { result ≡ slice_index_or (clauses self.now) i result }
    {
        read_clause(self.row(i), self.layout.names, i)
    }
}

// The clause of clause line `i`, from 0, which has `n` values.
fn read_clause(line: &[u8], n: usize, i: usize) -> Clause
    requires { (length line.now ≡ 2 * n) × ((n ≤ most_names) × (i ≤ longest)) }
    ensures { result ≡ row_clause i (values n line.now) }
{
    let mut body = AtomSet::empty();
    let mut head = AtomSet::empty();
    // By number: `k` names the atom, and its value stands at `2 * k`; numbered pieces of two bytes would say no more.
    for k in 0..n {
        let atom = Atom::new(k as u8).unwrap();
        match line[2 * k] {
            b'b' => body = body.with(atom),
            b'h' => head = head.with(atom),
            _ => {}
        }
    }
    let origin = Origin {
        kind: Kind::Sheet,
        number: i as u64 + 2,
    };
    Clause { body, head, origin }
}
