ghost use Rattle.std.specs.Prelude.{◌≡◌, [], ◌∷◌, ◌++◌, IfOk};

use smallvec::SmallVec;
use std::alloc::Global;
use std::marker::Model;
use tptp_base::Memory;

/// A place in a literal: the argument numbers from the literal down, counted from 0. The sides of an equation are its
/// arguments 0 and 1. Most places are a few steps deep and need no memory of their own.
#[derive(Drop)]
pub struct Position {
    steps: SmallVec<usize, 8>,
}

impl Model for Position {
    ghost use Rattle.std.specs.Prelude.{List, ℕ};
    ghost use Rattle.std.specs.Coded.{coded_list, codes};

    ghost Value = { List ℕ };

    ghost view = { λ p. p.steps.items };
}

impl Position {
    /// The place without steps.
    pub fn new(alloc: Global) -> Position
        ensures { result ≡ [] }
    {
        Position {
            steps: SmallVec::new(alloc),
        }
    }

    /// The place with these steps.
    pub fn from_slice(alloc: Global, steps: &[usize]) -> Result<Position, Memory>
        ensures { IfOk result (λ place. place ≡ steps.now) }
    {
        let steps = SmallVec::from_slice(alloc, steps)?;
        Ok(Position { steps })
    }

    /// The argument numbers, from the literal down.
    pub fn as_slice(&self) -> &[usize]
        ensures { result.now ≡ self.now }
    {
        self.steps.as_slice()
    }
}
