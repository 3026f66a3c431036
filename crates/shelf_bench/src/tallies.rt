// What is done to a shelf, whichever it is.
use crate::made::{Order, Words};
use shelves::Shelf;

// How many sets are kept, in which order they come, and how many questions are asked.
#[derive(Clone, Copy)]
pub struct Plan {
    pub order: Order,
    pub sets: usize,
    pub questions: usize,
}

// How many sets were kept, and how many questions were answered yes.
#[derive(Clone, Copy)]
pub struct Tally {
    pub kept: usize,
    pub held: usize,
}

impl Plan {
    pub fn run<H: Shelf>(&self, shelf: &mut H) -> Tally {
        self.fill(shelf);
        Tally {
            kept: shelf.len(),
            held: self.ask(shelf),
        }
    }

    // Keeps the sets, as many as have places.
    fn fill<H: Shelf>(&self, shelf: &mut H) {
        let mut words = Words::new(1);
        for i in 0..self.sets {
            let _ = shelf.keep(words.set(self, i));
        }
    }

    // Asks the questions, and counts the answers yes.
    fn ask<H: Shelf>(&self, shelf: &H) -> usize {
        let mut words = Words::new(2);
        (0..self.questions)
            .filter(|_| shelf.holds_subset_of(words.question()))
            .count()
    }
}
