//! Marks on atoms.
ghost use Rattle.std.specs.Prelude.{◌≡◌, ◌<◌, length, ℕ, true, IfOk, OnOk, IsTrue};
ghost use Rattle.std.specs.List.{Contains};
ghost use Rattle.clause_learning.specs.code.Marked.{mark_at, AreClear, AreWithin, IsMarkedAt, IsUnmarkedAt, AreMarked};

use crate::level::Level;
use crate::literal::Literal;
use crate::trail::Trail;
use sqlite_items::Items as List;
use std::alloc::{AllocError, Global};

/// Which atoms are marked, and a list that has each of these.
#[derive(Drop)]
pub struct Marks {
    pub marks: List<bool>,
    pub touched: List<usize>,
}

impl Marks {
    /// That many atoms, none of which is marked.
    pub fn new(alloc: Global, atoms: usize) -> Result<Marks, AllocError>
        ensures { IfOk result (AreClear atoms) }
    {
        let mut marks = List::new(alloc);
        for _at in 0..atoms {
            marks.push(false)?;
        }
        Ok(Marks {
            marks,
            touched: List::new(alloc),
        })
    }

    /// Whether the atom is marked.
    pub fn has(&self, atom: usize) -> bool
        ensures { result ≡ mark_at self.now atom }
    {
        match self.marks.get(atom) {
            Some(mark) => *mark,
            None => false,
        }
    }

    /// Marks the atom.
    pub fn mark(&mut self, atom: usize) -> Result<(), AllocError>
        requires { atom < length self.old.marks }
        ensures { OnOk result (IsMarkedAt self.old atom self.new) }
    {
        if !self.has(atom) {
            self.touched.push(atom)?;
            self.marks.set(atom, true);
        }
        Ok(())
    }

    /// Marks the atoms of the literals, and counts those of the level.
    pub fn mark_all(
        &mut self,
        lits: &[Literal],
        trail: &Trail,
        level: &mut Level,
    ) -> Result<(), AllocError>
        requires { AreWithin (length self.old.marks) lits.now }
        ensures { OnOk result (AreMarked self.old lits.now self.new) }
    {
        for lit in lits {
            level.meet(self, trail, lit.atom);
            self.mark(lit.atom)?;
        }
        Ok(())
    }

    /// Takes the mark of the atom away.
    pub fn unmark(&mut self, atom: usize)
        ensures { IsUnmarkedAt self.old atom self.new }
    {
        if atom < self.marks.len() {
            self.marks.set(atom, false);
        }
    }

    /// Takes every mark away.
    pub fn clear(&mut self)
        requires { (a : ℕ) → mark_at self.old a ≡ true → Contains self.old.touched a }
        ensures { AreClear (length self.old.marks) self.new }
    {
        'atoms: while let Some(atom) = self.touched.pop() {
            self.unmark(atom);
        }
    }
}
