// Listing explanations onto a shelf.
ghost use Rattle.std.specs.Prelude.{◌≡◌, [], map};
ghost use Rattle.atoms.specs.Atoms.{bits};
ghost use Rattle.cases.specs.Cases.{clauses_of, Sound};
ghost use Rattle.explaining.specs.Firsts.{Firsts};

use cases::{Case, Listing};
use clauses::Source;
use shelves::Shelf;

// Lists the first explanations of a source onto the shelf, as many as it has places, in place of what it held. Answers whether
// there are no more.
pub fn list_first<S: Source + Drop, H: Shelf>(source: S, shelf: &mut H) -> bool
    ensures firsts { Firsts (S.Source.clauses source)
        (H.Shelf.room shelf.old) result (map bits (H.Shelf.sets shelf.new)) }
    ensures room { H.Shelf.room shelf.new ≡ H.Shelf.room shelf.old }
    ensures lender { H.Shelf.lender shelf.new ≡ H.Shelf.lender shelf.old }
{
    shelf.clear();
    let mut listing = Case::new(source).open();
    let complete = list_on(&mut listing, shelf);
    let _ = listing.close().into_source();
    complete
}

// Requests explanations until there are no more, or the shelf has no place for the next.
fn list_on<S: Source, H: Shelf>(listing: &mut Listing<S>, shelf: &mut H) -> bool
    requires { (Sound (clauses_of S.Source.clauses listing.old) listing.old []) × (H.Shelf.sets shelf.old ≡ []) }
    ensures firsts { Firsts (clauses_of S.Source.clauses listing.old)
        (H.Shelf.room shelf.old) result (map bits (H.Shelf.sets shelf.new)) }
    ensures room { H.Shelf.room shelf.new ≡ H.Shelf.room shelf.old }
    ensures lender { H.Shelf.lender shelf.new ≡ H.Shelf.lender shelf.old }
{
    'requests: loop {
        match listing.request(shelf) {
            Ok(Some(_)) => {}
            Ok(None) => return true,
            Err(_) => return false,
        }
    }
}
