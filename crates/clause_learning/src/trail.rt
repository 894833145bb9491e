//! The literals that are held true, in the order in which they were.
ghost use Rattle.std.specs.Prelude.{◌≡◌, ◌<◌, length, IfOk, OnOk, MatchOption};
ghost use Rattle.clause_learning.specs.code.Trails.{value_at, IsFresh, IsPushed, IsUndone, IsEmptyBoth};

use crate::literal::Literal;
use sqlite_items::Items as List;
use std::alloc::{AllocError, Global};

/// The sign that an atom was given, and the place of its literal in the trail.
#[derive(Clone, Copy, Drop)]
pub struct Value {
    pub positive: bool,
    pub place: usize,
}

/// A literal that was taken to be true: by the clause of this number, or freely.
#[derive(Clone, Copy, Drop)]
pub struct Step {
    pub literal: Literal,
    pub reason: Option<usize>,
}

/// The steps, and the value of each atom.
#[derive(Drop)]
pub struct Trail {
    pub steps: List<Step>,
    pub values: List<Option<Value>>,
}

impl Trail {
    /// No step, and that many atoms without value.
    pub fn new(alloc: Global, atoms: usize) -> Result<Trail, AllocError>
        ensures { IfOk result (IsFresh atoms) }
    {
        let mut values = List::new(alloc);
        for _at in 0..atoms {
            values.push(None)?;
        }
        Ok(Trail {
            steps: List::new(alloc),
            values,
        })
    }

    /// The value of the atom.
    pub fn value(&self, atom: usize) -> Option<Value>
        ensures { result ≡ value_at self.now.values atom }
    {
        match self.values.get(atom) {
            Some(value) => *value,
            None => None,
        }
    }

    /// Takes the literal to be true.
    pub fn push(&mut self, literal: Literal, reason: Option<usize>) -> Result<(), AllocError>
        requires { literal.atom < length self.old.values }
        ensures { OnOk result (IsPushed self.old literal reason self.new) }
    {
        let place = self.steps.len();
        self.steps.push(Step { literal, reason })?;
        let value = Value {
            positive: literal.positive,
            place,
        };
        self.values.set(literal.atom, Some(value));
        Ok(())
    }

    /// Takes the last step back.
    pub fn undo(&mut self) -> Option<Step>
        ensures { MatchOption result (IsEmptyBoth self.old self.new) (IsUndone self.old self.new) }
    {
        let step = self.steps.pop()?;
        if step.literal.atom < self.values.len() {
            self.values.set(step.literal.atom, None);
        }
        Some(step)
    }
}
