// Runs of calls on a new case.
ghost use Rattle.std.specs.Prelude.{◌≡◌, ◌<◌, map, length, take, slice_index_or};
ghost use Rattle.atoms.specs.Atoms.{bits};
ghost use Rattle.histories.specs.Answers.{Made, blank, call_of};
ghost use Rattle.histories.specs.Histories.{Complete, InTurn, OnShelf};
ghost use Rattle.histories.specs.Phases.{Barred, Lawful, phase_after};
ghost use Rattle.histories.specs.States.{Agrees, below_of};

use crate::calls::Entry;
use crate::states::State;
use cases::Case;
use clauses::Source;
use shelves::Shelf;

// Makes the calls of the entries up to the first that is not for the state, and keeps the case.
fn run<S: Source, H: Shelf>(source: S, shelf: &mut H, entries: &mut [Entry]) -> (State<S>, usize)
    ensures source { below_of result.0 ≡ source }
    ensures room { H.Shelf.room shelf.new ≡ H.Shelf.room shelf.old }
    ensures lender { H.Shelf.lender shelf.new ≡ H.Shelf.lender shelf.old }
    ensures made { Made entries.old entries.new result.1 }
    ensures lawful { Lawful (S.Source.clauses source) (H.Shelf.room shelf.old)
        (take result.1 entries.new) }
    ensures stopped { result.1 < length entries.new
        → Barred (phase_after (take result.1 entries.new)) (call_of (slice_index_or entries.new result.1 blank)) }
    ensures agrees { Agrees S.Source.clauses result.0 (H.Shelf.sets shelf.new)
        (phase_after (take result.1 entries.new)) }
{
    let mut state = State::AtRest(Case::new(source));
    for (i, entry) in entries.iter_mut().enumerate() {
        let (next, answer) = state.perform(entry.call, shelf);
        state = next;
        match answer {
            Some(answer) => entry.answer = answer,
            None => return (state, i),
        }
    }
    (state, entries.len())
}

// Makes the calls of the entries, in order, on a new case over the source, and writes their answers into the entries. The
// shelf is emptied at each opening. It stops before the first call that is not in turn, as a request with no listing open.
// Gives back the source, and how many calls it made.
// The caller gives the memory and is told how much of it is filled, by a rule of the project: no heap.
pub fn replay<S: Source, H: Shelf>(source: S, shelf: &mut H, entries: &mut [Entry]) -> (S, usize)
    ensures source { result.0 ≡ source }
    ensures room { H.Shelf.room shelf.new ≡ H.Shelf.room shelf.old }
    ensures lender { H.Shelf.lender shelf.new ≡ H.Shelf.lender shelf.old }
    ensures made { Made entries.old entries.new result.1 }
    ensures complete { Complete (S.Source.clauses source) (H.Shelf.room shelf.old)
        (take result.1 entries.new) }
    ensures shelf { OnShelf (take result.1 entries.new) (map bits (H.Shelf.sets shelf.new)) }
    ensures stopped { result.1 < length entries.new
        → InTurn (take result.1 entries.new) (call_of (slice_index_or entries.new result.1 blank)) → ⊥ }
{
    let (state, made) = run(source, shelf, entries);
    (state.into_source(), made)
}
