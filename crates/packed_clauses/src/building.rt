//! Clauses from pieces.
ghost use Rattle.std.specs.Prelude.{◌≡◌, IfOk};
ghost use Rattle.packed_clauses.specs.Reading.{built, nothing, equation_of, with_lit, with_term};
ghost use Rattle.packed_clauses.specs.declared.piece.Kind.TheVariants.{Sort, Open, Close, Predicate, Equation};

use crate::piece::Kind;
use clause_form::{AtomOf, Lit};
use fof_terms::{SortId, SymId, Term};
use std::alloc::Global;
use tptp_base::{List, Memory};

/// A term that has begun: its symbol, and the terms that stand before it.
#[derive(Drop)]
pub struct Begun {
    pub symbol: SymId,
    pub before: List<Term>,
}

/// What was built so far: sorts, literals, terms that have begun, and the terms since the last of these began.
#[derive(Drop)]
pub struct Builder {
    pub sorts: List<SortId>,
    pub lits: List<Lit>,
    pub begun: List<Begun>,
    pub terms: List<Term>,
}

impl Builder {
    /// Nothing was built.
    pub fn new(alloc: Global) -> Builder
        ensures { result ≡ nothing }
    {
        Builder {
            sorts: List::new(alloc),
            lits: List::new(alloc),
            begun: List::new(alloc),
            terms: List::new(alloc),
        }
    }

    /// What is built with this piece more.
    pub fn with(self, alloc: Global, kind: Kind, number: u32) -> Result<Builder, Memory>
        ensures { IfOk result (λ builder. builder ≡ built self kind number) }
    {
        match kind {
            Kind::Sort => self.with_sort(number),
            Kind::Variable => self.with_term(Term::Var(number)),
            Kind::Open => self.with_begun(alloc, number),
            Kind::Close => self.with_ended(),
            Kind::Predicate(positive) => self.with_predicate(alloc, positive, number),
            Kind::Equation(positive) => self.with_equation(alloc, positive),
            Kind::Truth(positive) => self.with_lit(Lit {
                positive,
                atom: AtomOf::True,
            }),
            Kind::Falsehood(positive) => self.with_lit(Lit {
                positive,
                atom: AtomOf::False,
            }),
        }
    }

    // With one sort more.
    fn with_sort(self, sort: SortId) -> Result<Builder, Memory>
        ensures { IfOk result (λ builder. builder ≡ built self Sort sort) }
    {
        let mut builder = self;
        builder.sorts.push(sort)?;
        Ok(builder)
    }

    // With one term more.
    fn with_term(self, term: Term) -> Result<Builder, Memory>
        ensures { IfOk result (λ builder. builder ≡ with_term self term) }
    {
        let mut builder = self;
        builder.terms.push(term)?;
        Ok(builder)
    }

    // With one literal more.
    fn with_lit(self, lit: Lit) -> Result<Builder, Memory>
        ensures { IfOk result (λ builder. builder ≡ with_lit self lit self.terms) }
    {
        let mut builder = self;
        builder.lits.push(lit)?;
        Ok(builder)
    }

    // With one term more that has begun.
    fn with_begun(self, alloc: Global, symbol: SymId) -> Result<Builder, Memory>
        ensures { IfOk result (λ builder. builder ≡ built self Open symbol) }
    {
        let Builder {
            sorts,
            lits,
            mut begun,
            terms,
        } = self;
        begun.push(Begun {
            symbol,
            before: terms,
        })?;
        Ok(Builder {
            sorts,
            lits,
            begun,
            terms: List::new(alloc),
        })
    }

    // With the last term ended that has begun.
    fn with_ended(self) -> Result<Builder, Memory>
        ensures { IfOk result (λ builder. builder ≡ built self Close 0) }
    {
        let Builder {
            sorts,
            lits,
            mut begun,
            terms,
        } = self;
        let Begun { symbol, before } = match begun.pop() {
            Some(last) => last,
            None => return Err(Memory),
        };
        let mut all = before;
        all.push(Term::App(symbol, terms))?;
        Ok(Builder {
            sorts,
            lits,
            begun,
            terms: all,
        })
    }

    // With one literal more, of the terms.
    fn with_predicate(self, alloc: Global, positive: bool, symbol: SymId) -> Result<Builder, Memory>
        ensures { IfOk result (λ builder. builder ≡ built self (Predicate positive) symbol) }
    {
        let Builder {
            sorts,
            mut lits,
            begun,
            terms,
        } = self;
        lits.push(Lit {
            positive,
            atom: AtomOf::Pred(symbol, terms),
        })?;
        Ok(Builder {
            sorts,
            lits,
            begun,
            terms: List::new(alloc),
        })
    }

    // With one equation more, of the two terms.
    fn with_equation(self, alloc: Global, positive: bool) -> Result<Builder, Memory>
        ensures { IfOk result (λ builder. builder ≡ built self (Equation positive) 0) }
    {
        let Builder {
            sorts,
            mut lits,
            begun,
            terms,
        } = self;
        let atom = equation_from(terms)?;
        lits.push(Lit { positive, atom })?;
        Ok(Builder {
            sorts,
            lits,
            begun,
            terms: List::new(alloc),
        })
    }
}

// The equation of two terms.
fn equation_from(terms: List<Term>) -> Result<AtomOf, Memory>
    ensures { IfOk result (λ atom. atom ≡ equation_of terms) }
{
    let mut rest = terms;
    let right = match rest.pop() {
        Some(right) => right,
        None => return Err(Memory),
    };
    let left = match rest.pop() {
        Some(left) => left,
        None => return Err(Memory),
    };
    if !rest.is_empty() {
        return Err(Memory);
    }
    Ok(AtomOf::Eq(left, right))
}
