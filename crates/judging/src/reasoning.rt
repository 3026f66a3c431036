// The reasons of a set that is judged.
ghost use Rattle.std.specs.Prelude.{◌≡◌, ◌≤◌, length, MatchBool, MatchOption};
ghost use Rattle.atoms.specs.Atoms.{bits, index};
ghost use Rattle.atoms.specs.Sets.{remove, size};
ghost use Rattle.clauses.specs.Clauses.{language};
ghost use Rattle.judging.specs.Reasons.{Answered, EachHasReason, Filled, HasReason, Reasoned, SomeLacksReason, Tells};
ghost use Rattle.judging.specs.Standing.{judged_by};
ghost use Rattle.models.specs.Models.{Minimal, Model};

use crate::judges::Judged;
use crate::records::{Reason, ReasonsRefusal};
use atoms::Atom;
use clauses::Source;
use lists::BoundedList;

impl<S: Source> Judged<'_, S> {
    // The set without an atom, as judged in the same case.
    fn without(&self, atom: Atom) -> Judged<'_, S>
        ensures clauses { judged_by S.Source.clauses result ≡ judged_by S.Source.clauses self.now }
        ensures set { bits result.set ≡ remove (bits self.now.set) (index atom) }
    {
        Judged {
            case: self.case,
            set: self.set.without(atom),
        }
    }

    // The reason of an atom in the set, or `None` where the set without the atom is a model.
    fn reason_of(&self, atom: Atom) -> Option<Reason>
        ensures { MatchOption result
            (Model language (judged_by S.Source.clauses self.now) (remove (bits self.now.set) (index atom)))
            (λ x. (x.atom ≡ atom) × Tells (judged_by S.Source.clauses self.now) (bits self.now.set) x) }
    {
        self.without(atom).first_broken().map(|clause| Reason {
            atom,
            origin: clause.origin,
        })
    }

    // Has an atom a reason in the set?
    fn has_reason(&self, atom: Atom) -> bool
        ensures { MatchBool result
            (HasReason (judged_by S.Source.clauses self.now) (bits self.now.set) (index atom))
            (¬ HasReason (judged_by S.Source.clauses self.now) (bits self.now.set) (index atom)) }
    {
        self.reason_of(atom).is_some()
    }

    // Has each atom of the set a reason?
    fn each_has_reason(&self) -> bool
        ensures { MatchBool result
            (EachHasReason (judged_by S.Source.clauses self.now) (bits self.now.set))
            (SomeLacksReason (judged_by S.Source.clauses self.now) (bits self.now.set)) }
    {
        self.set.iter().all(|atom| self.has_reason(atom))
    }

    // Fills the front of the records with the reasons of the set, and answers how many these are.
    fn fill(&self, records: &mut [Reason]) -> Result<usize, ReasonsRefusal>
        requires reasons { EachHasReason (judged_by S.Source.clauses self.now) (bits self.now.set) }
        requires room { size (bits self.now.set) ≤ length records.old }
        ensures { Filled (judged_by S.Source.clauses self.now) (bits self.now.set)
            records.old records.new result }
    {
        let mut list = BoundedList::new(records);
        for atom in self.set.iter() {
            list.push(self.reason_of(atom).unwrap())?;
        }
        Ok(list.len())
    }

    // Fills the front of the records with the reasons of the set, one for each of its atoms, and answers how many these are.
    // Their order is left open, and the later records are not touched. Refused where the set is no model, else where one of
    // its atoms has no reason, else where it has more atoms than there are records; then nothing changes.
    // The caller gives the memory and is told how much of it is filled, by a rule of the project: no heap.
    pub fn reasons(&self, records: &mut [Reason]) -> Result<usize, ReasonsRefusal>
        ensures answer { Answered (judged_by S.Source.clauses self.now) (bits self.now.set)
            records.old records.new result }
        ensures minimal { Minimal language (judged_by S.Source.clauses self.now) (bits self.now.set)
            → Reasoned result }
    {
        if !self.is_model() {
            return Err(ReasonsRefusal::NoModel);
        }
        if !self.each_has_reason() {
            return Err(ReasonsRefusal::NoReason);
        }
        if records.len() < self.set.len() as usize {
            return Err(ReasonsRefusal::TooFewRecords);
        }
        self.fill(records)
    }
}
