// Made-up sets and questions, the same in every run.
use crate::Usage;
use crate::tallies::Plan;
use atoms::{Atom, AtomSet};
use std::str::FromStr;

// How many sets have one atom of each group: five for each of twelve groups.
const CHOICES: u64 = 244_140_625;

// In which order the sets are kept: as a listing hands them out, or mixed.
#[derive(Clone, Copy)]
pub enum Order {
    Listed,
    Mixed,
}

impl FromStr for Order {
    type Err = Usage;

    fn from_str(word: &str) -> Result<Order, Usage> {
        match word {
            "listed" => Ok(Order::Listed),
            "mixed" => Ok(Order::Mixed),
            _ => Err(Usage),
        }
    }
}

// A row of words that looks like chance (splitmix64).
#[derive(Drop)]
pub struct Words {
    state: u64,
}

impl Words {
    pub fn new(seed: u64) -> Words {
        Words { state: seed }
    }

    fn next(&mut self) -> u64 {
        self.state = self.state.wrapping_add(0x9E37_79B9_7F4A_7C15);
        let mut word = self.state;
        word = (word ^ (word >> 30)).wrapping_mul(0xBF58_476D_1CE4_E5B9);
        word = (word ^ (word >> 27)).wrapping_mul(0x94D0_49BB_1331_11EB);
        word ^ (word >> 31)
    }

    // A number below the bound, or 0 where that is 0.
    fn below(&mut self, bound: u64) -> u64 {
        self.next().checked_rem(bound).unwrap_or(0)
    }

    // Set `i` of a plan. In list order the sets are spread over all choices, and each comes after those before it.
    pub fn set(&mut self, plan: &Plan, i: usize) -> AtomSet {
        match plan.order {
            Order::Listed => {
                let step = CHOICES.checked_div(plan.sets as u64).unwrap_or(0);
                choice((i as u64).wrapping_mul(step).wrapping_add(self.below(step)))
            }
            Order::Mixed => choice(self.below(CHOICES)),
        }
    }

    // A set of about 24 atoms.
    pub fn question(&mut self) -> AtomSet {
        let word = self.next() & (self.next() | self.next());
        AtomSet::from_word(word)
    }
}

// The set with one atom of each of twelve groups of five: the digits of the number to the base five choose them, the highest
// digit that of the first group. Where clauses ask for one atom of each group, these are the explanations, and those of smaller
// numbers come first.
fn choice(number: u64) -> AtomSet {
    let mut set = AtomSet::empty();
    let mut left = number;
    for group in 0..12u8 {
        let chosen = (left % 5) as u8;
        if let Some(atom) = Atom::new(5 * (11 - group) + chosen) {
            set = set.with(atom);
        }
        left /= 5;
    }
    set
}
