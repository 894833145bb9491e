//! Clauses and terms that are kept as bytes.
ghost use Rattle.std.specs.Prelude.{◌≡◌, ◌<◌, ◌↔◌, ◌++◌, [], length, map, remove, IfOk, IsTrue};
ghost use Rattle.clause_form.specs.Covers.{lit_image};
ghost use Rattle.clause_form.specs.Images.{image};
ghost use Rattle.packed_clauses.specs.Instances.{given};

use crate::imaging::{write_images, write_instances};
use crate::reading::read;
use crate::writing::{write_clause, write_sorts, write_terms};
use clause_form::{Clause, Lit};
use fof_terms::{SortId, Term};
use std::alloc::Global;
use std::marker::Model;
use tptp_base::{List, Memory, Text};

/// A clause in few bytes, and whether it is empty.
#[derive(Drop)]
pub struct PackedClause {
    bytes: Text,
    empty: bool,
}

impl Model for PackedClause {
    ghost use Rattle.std.specs.Prelude.{◌≡◌, ◌↔◌, IsTrue, []};
    ghost use Rattle.std.specs.Coded.{codes};
    ghost use Rattle.clause_form.specs.declared.clause.Clause.{Clause as Disjunction};
    ghost use Rattle.clause_form.specs.contracts.clause.Clause as clause;
    ghost use Rattle.packed_clauses.specs.Reading.{clause_read};

    ghost Value = { Disjunction };

    ghost coded = { Prim.hlevel (codes, clause.the_row.coded) };

    ghost view = { λ p. clause_read p.bytes };

    ghost invariant = { λ p. IsTrue p.empty ↔ ((clause_read p.bytes).lits ≡ []) };
}

impl PackedClause {
    /// The clause, packed.
    pub fn new(alloc: Global, clause: &Clause) -> Result<PackedClause, Memory>
        ensures { IfOk result (λ packed. packed ≡ clause.now) }
    {
        let mut bytes = scratch(alloc)?;
        write_clause(clause, &mut bytes)?;
        Ok(PackedClause {
            bytes: List::from_slice(alloc, bytes.as_slice())?,
            empty: clause.lits.is_empty(),
        })
    }

    /// A clause over these sorts: the literals but the one, and the rest, each with the images of its variables in
    /// place of these, and then again with the last images. It is packed as it is made.
    pub fn of_instances(
        alloc: Global,
        sorts: &[SortId],
        lits: &[Lit],
        at: usize,
        rest: &[Lit],
        images: &[Term],
        last: &[Term],
    ) -> Result<PackedClause, Memory>
        requires { at < length lits.now }
        ensures { IfOk result (λ packed. packed ≡ record {
          sorts = sorts.now;
          lits = map (lit_image (given last.now))
              (map (lit_image (given images.now)) (remove lits.now at ++ rest.now));
        }) }
    {
        let mut bytes = scratch(alloc)?;
        write_sorts(sorts, &mut bytes)?;
        write_instances(&lits[..at], images, last, &mut bytes)?;
        write_instances(&lits[at + 1..], images, last, &mut bytes)?;
        write_instances(rest, images, last, &mut bytes)?;
        Ok(PackedClause {
            bytes: List::from_slice(alloc, bytes.as_slice())?,
            empty: lits.len() + rest.len() == 1,
        })
    }

    /// Whether the clause is empty. It is not unpacked for that.
    pub fn is_empty(&self) -> bool
        ensures { IsTrue result ↔ (self.now.lits ≡ []) }
    {
        self.empty
    }

    /// The clause again.
    pub fn unpack(&self, alloc: Global) -> Result<Clause, Memory>
        ensures { IfOk result (λ clause. clause ≡ self.now) }
    {
        let builder = read(alloc, self.bytes.as_slice())?;
        Ok(Clause {
            sorts: builder.sorts,
            lits: builder.lits,
        })
    }

    /// Whether this is the other clause.
    pub fn is(&self, other: &PackedClause) -> bool
        ensures { IsTrue result → self.now ≡ other.now }
    {
        self.bytes.as_slice() == other.bytes.as_slice()
    }

    /// A sum of the clause: those of equal clauses are equal, and those of others seldom are. No promise rests on it.
    pub fn sum(&self) -> u64 {
        let mut sum: u64 = 0;
        for byte in self.bytes.as_slice() {
            let mixed = (sum ^ *byte as u64).wrapping_mul(0x9e37_79b9_7f4a_7c15);
            sum = mixed ^ (mixed >> 29);
        }
        sum
    }
}

/// A list of terms in few bytes.
#[derive(Drop)]
pub struct PackedTerms {
    bytes: Text,
}

impl Model for PackedTerms {
    ghost use Rattle.std.specs.Prelude.{List};
    ghost use Rattle.std.specs.Coded.{codes};
    ghost use Rattle.fof_terms.specs.declared.term.Term.{Term as Inner};
    ghost use Rattle.fof_terms.specs.contracts.term.Term as term;
    ghost use Rattle.packed_clauses.specs.Reading.{terms_read};

    ghost Value = { List Inner };

    ghost coded = { Prim.hlevel (codes, term.the_row.coded) };

    ghost view = { λ p. terms_read p.bytes };
}

impl PackedTerms {
    /// The terms, packed.
    pub fn new(alloc: Global, terms: &[Term]) -> Result<PackedTerms, Memory>
        ensures { IfOk result (λ packed. packed ≡ terms.now) }
    {
        let mut bytes = scratch(alloc)?;
        write_terms(terms, &mut bytes)?;
        Ok(PackedTerms {
            bytes: List::from_slice(alloc, bytes.as_slice())?,
        })
    }

    /// The terms with the images of their variables in place of these. They are packed as they are made.
    pub fn of_images(alloc: Global, terms: &[Term], images: &[Term]) -> Result<PackedTerms, Memory>
        ensures { IfOk result (λ packed. packed ≡ map (image (given images.now)) terms.now) }
    {
        let mut bytes = scratch(alloc)?;
        write_images(terms, images, &mut bytes)?;
        Ok(PackedTerms {
            bytes: List::from_slice(alloc, bytes.as_slice())?,
        })
    }

    /// The terms again.
    pub fn unpack(&self, alloc: Global) -> Result<List<Term>, Memory>
        ensures { IfOk result (λ terms. terms ≡ self.now) }
    {
        let builder = read(alloc, self.bytes.as_slice())?;
        Ok(builder.terms)
    }
}

// No bytes, with room for as many as most clauses take.
fn scratch(alloc: Global) -> Result<Text, Memory>
    ensures { IfOk result (λ bytes. bytes ≡ []) }
{
    Ok(List::from_vec(Vec::with_capacity(alloc, 256)?))
}
