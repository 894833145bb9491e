//! The clauses that are given, and those that were learned.
ghost use Rattle.std.specs.Prelude.{◌≡◌, [], length, slice_get};
ghost use Rattle.std.specs.Option.{option_copied};
ghost use Rattle.clause_learning.specs.code.Trails.{clauses_of};

use crate::literal::Literal;
use sqlite_items::Items as List;
use std::alloc::Global;

/// A clause that follows: its literals, and the numbers of the clauses from which it was made, each after the first
/// resolved with what came before on one literal, the only one of the first that has its opposite in the second.
#[derive(Drop)]
pub struct Learned {
    pub lits: List<Literal>,
    pub from: List<u64>,
}

/// The clauses that are given, and behind them those that were learned.
#[derive(Drop)]
pub struct Clauses {
    pub inputs: List<List<Literal>>,
    pub log: List<Learned>,
}

impl Clauses {
    /// Those that are given.
    pub fn new(alloc: Global, inputs: List<List<Literal>>) -> Clauses
        ensures { (result.inputs ≡ inputs) × (result.log ≡ []) }
    {
        Clauses {
            inputs,
            log: List::new(alloc),
        }
    }

    /// How many there are.
    pub fn len(&self) -> usize
        ensures { result ≡ length (clauses_of self.now) }
    {
        self.inputs.as_slice().len() + self.log.as_slice().len()
    }

    /// The literals of the clause of this number.
    pub fn get(&self, number: usize) -> Option<&List<Literal>>
        ensures { option_copied result ≡ slice_get (clauses_of self.now) number }
    {
        let given = self.inputs.len();
        if number < given {
            return self.inputs.get(number);
        }
        match self.log.get(number - given) {
            Some(learned) => Some(&learned.lits),
            None => None,
        }
    }
}
