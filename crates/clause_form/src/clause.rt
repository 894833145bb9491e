ghost use Rattle.std.specs.Prelude.{◌≡◌, IfOk};

use fof_terms::{SortId, SymId, Term, copy_terms};
use std::alloc::Global;
use tptp_base::{List, Memory};

/// What a literal states or denies.
#[derive(Drop)]
pub enum AtomOf {
    Pred(SymId, List<Term>),
    Eq(Term, Term),
    True,
    False,
}

/// An atom or its denial.
#[derive(Drop)]
pub struct Lit {
    pub positive: bool,
    pub atom: AtomOf,
}

/// A disjunction of literals, for all values of its variables. The first sort is that of the outermost variable, the
/// last that of variable 0.
#[derive(Drop)]
pub struct Clause {
    pub sorts: List<SortId>,
    pub lits: List<Lit>,
}

impl AtomOf {
    /// The same atom, in memory of its own.
    pub fn copy(&self, alloc: Global) -> Result<AtomOf, Memory>
        ensures { IfOk result (λ copy. copy ≡ self.now) }
    {
        match self {
            AtomOf::Pred(symbol, args) => Ok(AtomOf::Pred(
                *symbol,
                copy_terms(alloc, args.as_slice())?,
            )),
            AtomOf::Eq(left, right) => Ok(AtomOf::Eq(left.copy(alloc)?, right.copy(alloc)?)),
            AtomOf::True => Ok(AtomOf::True),
            AtomOf::False => Ok(AtomOf::False),
        }
    }
}

impl Lit {
    /// The same literal, in memory of its own.
    pub fn copy(&self, alloc: Global) -> Result<Lit, Memory>
        ensures { IfOk result (λ copy. copy ≡ self.now) }
    {
        Ok(Lit {
            positive: self.positive,
            atom: self.atom.copy(alloc)?,
        })
    }
}

impl Clause {
    /// The same clause, in memory of its own.
    pub fn copy(&self, alloc: Global) -> Result<Clause, Memory>
        ensures { IfOk result (λ copy. copy ≡ self.now) }
    {
        let lits = copy_lits(alloc, self.lits.as_slice())?;
        Ok(Clause {
            sorts: List::from_slice(alloc, self.sorts.as_slice())?,
            lits,
        })
    }
}

/// The same literals, in memory of their own.
pub fn copy_lits(alloc: Global, lits: &[Lit]) -> Result<List<Lit>, Memory>
    ensures { IfOk result (λ copies. copies ≡ lits.now) }
{
    let mut copies = List::new(alloc);
    for lit in lits {
        copies.push(lit.copy(alloc)?)?;
    }
    Ok(copies)
}

/// The same clauses, in memory of their own.
pub fn copy_clauses(alloc: Global, clauses: &[Clause]) -> Result<List<Clause>, Memory>
    ensures { IfOk result (λ copies. copies ≡ clauses.now) }
{
    let mut copies = List::new(alloc);
    for clause in clauses {
        copies.push(clause.copy(alloc)?)?;
    }
    Ok(copies)
}
