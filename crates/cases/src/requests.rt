// A listing. `listed l` is its source with the observations that stand, and `count l` the number of sets handed out.
ghost use Rattle.std.specs.Prelude.{◌≡◌, ℕ, ◌+◌, List, ◌++◌, map, length, Err, ◌≢◌};
ghost use Rattle.atoms.specs.Atoms.{bits};
ghost use Rattle.models.specs.Models.{Explanations};
ghost use Rattle.clauses.specs.Clauses.{language};
ghost use Rattle.layers.specs.Standing.{below, standing};
ghost use Rattle.cases.specs.Cases.{clauses_of, count, listed, resting, Sound};
ghost use Rattle.cases.specs.Requests.{Answered, Fresh, Unless, handed};
ghost use Rattle.cases.specs.declared.refusals.RequestRefusal.TheVariants.{WrongShelf};

use crate::refusals::RequestRefusal;
use crate::{Case, Listing};
use atoms::AtomSet;
use clauses::Source;
use shelves::Shelf;

impl<S> Listing<S> {
    // The case whose explanations are listed.
    pub fn case(&self) -> &Case<S>
        ensures { resting result.now ≡ listed self.now }
    {
        &self.case
    }

    // How many sets it has handed out.
    pub fn given(&self) -> usize
        ensures { result ≡ count self.now }
    {
        self.given
    }

    // Ends the listing. The case is at rest again, with its observations.
    pub fn close(self) -> Case<S>
        ensures standing { standing (resting result) ≡ standing (listed self) }
        ensures below { below (resting result) ≡ below (listed self) }
    {
        self.case
    }
}

impl<S: Source> Listing<S> {
    // Hands out the next explanation, and puts it onto the shelf. Refused where the shelf has another number of sets than
    // were handed out, and where there is one more explanation and no place on the shelf. `None` where there is no more.
    pub fn request<H: Shelf>(&mut self, shelf: &mut H) -> Result<Option<AtomSet>, RequestRefusal>
        ensures standing { standing (listed self.new) ≡ standing (listed self.old) }
        ensures below { below (listed self.new) ≡ below (listed self.old) }
        ensures room { H.Shelf.room shelf.new ≡ H.Shelf.room shelf.old }
        ensures lender { H.Shelf.lender shelf.new ≡ H.Shelf.lender shelf.old }
        ensures kept { H.Shelf.sets shelf.new ≡ H.Shelf.sets shelf.old ++ handed result }
        ensures unless { Unless result (shelf.new ≡ shelf.old) }
        ensures count { count self.new ≡ count self.old + length (handed result) }
        ensures wrong { result ≡ Err WrongShelf
            → length (H.Shelf.sets shelf.old) ≢ count self.old }
        ensures right { (length (H.Shelf.sets shelf.old) ≢ count self.old)
            → result ≡ Err WrongShelf }
        ensures unmoved { result ≡ Err WrongShelf → self.new ≡ self.old }
        ensures fresh { Fresh (clauses_of S.Source.clauses self.old)
            (H.Shelf.sets shelf.old) result }
        ensures sound { Sound (clauses_of S.Source.clauses self.old)
            self.old (map bits (H.Shelf.sets shelf.old))
            → Sound (clauses_of S.Source.clauses self.old)
            self.new (map bits (H.Shelf.sets shelf.new)) }
        ensures answer { Sound (clauses_of S.Source.clauses self.old)
            self.old (map bits (H.Shelf.sets shelf.old))
            → (ms : List ℕ) → Explanations language (clauses_of S.Source.clauses self.old) ms
            → Answered ms (map bits (H.Shelf.sets shelf.old)) (H.Shelf.room shelf.old) result }
    {
        if shelf.len() != self.given {
            return Err(RequestRefusal::WrongShelf);
        }
        let Some(set) = self.walk.next(&self.case.source, shelf) else {
            return Ok(None);
        };
        shelf.keep(set)?;
        self.given += 1;
        Ok(Some(set))
    }
}
