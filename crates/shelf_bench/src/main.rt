#![tactic(auto)]
// Keeps made-up sets on a shelf and asks it made-up questions, for a clock outside to measure. The words of the call say which
// shelf, in which order the sets come, how many sets and how many questions: `shelf_bench indexed listed 65536 1000`.
use crate::tallies::{Plan, Tally};
use atoms::AtomSet;
use indexed::{IndexedShelf, ShelfRecord};
use shelves::FlatShelf;
use std::alloc::{AllocError, Global};
use std::error::Error;
use std::str::FromStr;
use std::{env, fmt};

mod made;
mod tallies;

// The words of a call are not those that the program takes.
#[derive(Clone, Copy, Debug)]
pub struct Usage;

impl fmt::Display for Usage {
    fn fmt<W: fmt::Write>(&self, f: &mut fmt::Formatter<W>) -> fmt::Result {
        write!(
            f,
            "usage: shelf_bench flat|indexed listed|mixed SETS QUESTIONS"
        )
    }
}

impl Error for Usage {}

// Which shelf is measured.
#[derive(Clone, Copy)]
enum Measured {
    Flat,
    Indexed,
}

impl FromStr for Measured {
    type Err = Usage;

    fn from_str(word: &str) -> Result<Measured, Usage> {
        match word {
            "flat" => Ok(Measured::Flat),
            "indexed" => Ok(Measured::Indexed),
            _ => Err(Usage),
        }
    }
}

// Runs the plan on a shelf that has a place for each of its sets.
// Each arm makes its own memory: the type of a shelf names the loan of its memory, and no type parameter stands for every loan.
fn measure(heap: Global, measured: Measured, plan: Plan) -> Result<Tally, AllocError> {
    match measured {
        Measured::Flat => {
            let mut memory = vec![in heap; AtomSet::empty(); plan.sets]?;
            Ok(plan.run(&mut FlatShelf::new(&mut memory)))
        }
        Measured::Indexed => {
            let mut memory = vec![in heap; ShelfRecord::blank(); plan.sets]?;
            Ok(plan.run(&mut IndexedShelf::new(&mut memory)))
        }
    }
}

fn bench(rt: &HostRuntime) -> anyhow::Result<()> {
    let mut words = env::args(rt)?.skip(1);
    let shelf = words.next().ok_or(Usage)?;
    let order = words.next().ok_or(Usage)?;
    let sets = words.next().ok_or(Usage)?;
    let questions = words.next().ok_or(Usage)?;
    let measured = shelf.as_str().parse()?;
    let plan = Plan {
        order: order.as_str().parse()?,
        sets: sets.as_str().parse()?,
        questions: questions.as_str().parse()?,
    };
    let Tally { kept, held } = measure(rt.alloc(), measured, plan)?;
    println!(rt; "{kept} sets kept, {held} questions answered yes")?;
    Ok(())
}

fn main(rt: HostRuntime) -> anyhow::Result<()> {
    bench(&rt)
}
