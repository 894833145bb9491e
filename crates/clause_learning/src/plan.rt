//! Which literals of a clause that is to be learned follow from its others. What is learned rests on none of this.
use crate::clauses::Clauses;
use crate::literal::Literal;
use crate::marks::Marks;
use crate::trail::Trail;
use sqlite_items::Items as List;
use std::alloc::{AllocError, Global};

/// Whether it was looked at what an atom's value follows from, and whether that is only the other literals.
#[derive(Clone, Copy, Drop)]
pub enum Verdict {
    Open,
    Stays,
    Goes,
}

/// What is known of each atom, those of which something is known, and those that may go, each behind the ones that its
/// value follows from.
#[derive(Drop)]
pub struct Plan {
    pub verdicts: List<Verdict>,
    pub seen: List<usize>,
    pub order: List<usize>,
}

// So many reasons are looked at one behind another.
const DEEPEST: usize = 30;

impl Plan {
    /// For that many atoms.
    pub fn new(alloc: Global, atoms: usize) -> Result<Plan, AllocError> {
        let mut verdicts = List::new(alloc);
        for _at in 0..atoms {
            verdicts.push(Verdict::Open)?;
        }
        Ok(Plan {
            verdicts,
            seen: List::new(alloc),
            order: List::new(alloc),
        })
    }

    /// Looks at each marked atom.
    pub fn make(
        &mut self,
        clauses: &Clauses,
        trail: &Trail,
        marks: &Marks,
    ) -> Result<(), AllocError> {
        self.forget();
        for atom in marks.touched.as_slice() {
            if marks.has(*atom) {
                self.may_go(clauses, trail, marks, *atom, DEEPEST)?;
            }
        }
        Ok(())
    }

    // Forgets what is known.
    fn forget(&mut self) {
        'atoms: while let Some(atom) = self.seen.pop() {
            if atom < self.verdicts.len() {
                self.verdicts.set(atom, Verdict::Open);
            }
        }
        'order: while let Some(_atom) = self.order.pop() {}
    }

    // Whether the atom's value follows from marked ones.
    #[cycle(may_go)]
    fn may_go(
        &mut self,
        clauses: &Clauses,
        trail: &Trail,
        marks: &Marks,
        atom: usize,
        depth: usize,
    ) -> Result<bool, AllocError> {
        match self.verdicts.get(atom) {
            Some(Verdict::Open) => {}
            Some(Verdict::Goes) => return Ok(true),
            _ => return Ok(false),
        }
        if depth == 0 {
            return Ok(false);
        }
        let goes = match reason_of(clauses, trail, atom) {
            Some(lits) => self.all_may_go(clauses, trail, marks, lits, atom, depth - 1)?,
            None => false,
        };
        self.seen.push(atom)?;
        if goes {
            self.order.push(atom)?;
        }
        if atom < self.verdicts.len() {
            let verdict = if goes { Verdict::Goes } else { Verdict::Stays };
            self.verdicts.set(atom, verdict);
        }
        Ok(goes)
    }

    // Whether the values of the literals' atoms, but for this one, are marked or follow from marked ones.
    #[cycle(may_go)]
    fn all_may_go(
        &mut self,
        clauses: &Clauses,
        trail: &Trail,
        marks: &Marks,
        lits: &[Literal],
        atom: usize,
        depth: usize,
    ) -> Result<bool, AllocError> {
        for lit in lits {
            if lit.atom != atom {
                let goes = self.may_go(clauses, trail, marks, lit.atom, depth)?;
                if !goes && !marks.has(lit.atom) {
                    return Ok(false);
                }
            }
        }
        Ok(true)
    }
}

// The clause that gave the atom its value.
fn reason_of<'a>(clauses: &'a Clauses, trail: &Trail, atom: usize) -> Option<&'a [Literal]> {
    let value = trail.value(atom)?;
    let step = trail.steps.get(value.place)?;
    let lits = clauses.get(step.reason?)?;
    Some(lits.as_slice())
}
