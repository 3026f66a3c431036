// The case that a history leaves, by its observations.
ghost use Rattle.std.specs.Prelude.{◌≡◌, ℕ, List, ◌++◌};
ghost use Rattle.clauses.specs.declared.clauses.Clause.{Clause};
ghost use Rattle.layers.specs.Standing.{below, standing};
ghost use Rattle.cases.specs.Cases.{resting};
ghost use Rattle.histories.specs.Histories.{Complete, standing as standing_in, stood};
ghost use Rattle.histories.specs.Standings.{replied};
ghost use Rattle.histories.specs.declared.calls.Entry.{Entry};

use crate::calls::{Call, Entry};
use cases::Case;

// Makes an observation or a withdrawal; no other call changes which observations stand.
fn make_again<S>(case: &mut Case<S>, call: Call)
    ensures standing { standing (resting case.new)
        ≡ stood (standing (resting case.old)) call (replied (standing (resting case.old)) call) }
    ensures below { below (resting case.new) ≡ below (resting case.old) }
{
    match call {
        Call::Observe(atom, present) => {
            let _ = case.observe(atom, present);
        }
        Call::Withdraw => {
            let _ = case.withdraw();
        }
        Call::Open | Call::Request | Call::Close => {}
    }
}

// A case at rest over the source, with the observations that stand after the history, as of the first entries of a run.
pub fn case_after<S>(source: S, history: &[Entry]) -> Case<S>
    ensures standing { (cs : List Clause) (places : ℕ) (later : List Entry)
        → Complete cs places (history.now ++ later)
        → standing (resting result) ≡ standing_in history.now }
    ensures below { below (resting result) ≡ source }
{
    let mut case = Case::new(source);
    for made in history {
        make_again(&mut case, made.call);
    }
    case
}
