// Walking from one explanation to the next.
ghost use Rattle.std.specs.Prelude.{List, [], map};
ghost use Rattle.atoms.specs.Atoms.{bits};
ghost use Rattle.clauses.specs.declared.clauses.Clause.{Clause};
ghost use Rattle.walks.specs.Walks.{Fresh, Reached, Sound};

use crate::Walk;
use crate::branches::Visit;
use crate::paths::Path;
use atoms::AtomSet;
use clauses::Source;
use shelves::Shelf;

impl Walk {
    // A walk that stands at the root, with no atom taken.
    pub fn new() -> Walk
        ensures { (cs : List Clause) → Sound cs result [] }
    {
        Walk {
            path: Some(Path::new()),
        }
    }

    // Goes on to the next model that includes no set on the shelf, and stands there until that set is on the shelf: asked
    // again before, it answers the same. `None` where there is no more.
    pub fn next<S: Source, H: Shelf>(&mut self, source: &S, shelf: &H) -> Option<AtomSet>
        ensures fresh { Fresh (S.Source.clauses source.now) (H.Shelf.sets shelf.now) result }
        ensures reached { Sound (S.Source.clauses source.now) self.old
            (map bits (H.Shelf.sets shelf.now))
            → Reached (S.Source.clauses source.now) (map bits (H.Shelf.sets shelf.now))
            self.new result }
    {
        while let Some(path) = &mut self.path {
            match path.visit(source, shelf) {
                Visit::Model(set) => return Some(set),
                Visit::Split(branch) => path.push(branch),
                Visit::Dead => {
                    if !path.advance() {
                        self.path = None;
                    }
                }
            }
        }
        None
    }
}
