//! Members in few bytes, while they wait.
ghost use Rattle.std.specs.Prelude.{◌≡◌, ◌↔◌, IfOk, IsTrue, []};
ghost use Rattle.saturation.specs.code.Named.{named};
ghost use Rattle.saturation.specs.code.Packed.{origin_of};
ghost use Rattle.saturation.specs.declared.member.Origin.TheVariants.{Input};

use crate::member::{Member, Origin};
use clause_form::Clause;
use packed_clauses::{PackedClause, PackedTerms};
use std::alloc::Global;
use std::marker::Model;
use superpose::Made;
use tptp_base::Memory;
use unify_terms::Subst;

/// Where a clause comes from that waits, as an `Origin` says it.
#[derive(Drop)]
pub enum Source {
    /// The input of this number.
    Given(u32),
    /// An inference from the members of these numbers, with these images.
    Made(u32, u32, PackedTerms),
}

/// A member that waits.
#[derive(Drop)]
pub struct Waiting {
    clause: PackedClause,
    source: Source,
}

impl Model for Waiting {
    ghost use Rattle.std.specs.Coded.{codes};
    ghost use Rattle.saturation.specs.declared.member.Member.{Member as Waits};
    ghost use Rattle.saturation.specs.contracts.member.Member as member;
    ghost use Rattle.saturation.specs.code.Packed.{member_of};

    ghost Value = { Waits };

    ghost coded = { Prim.hlevel (codes, member.the_row.coded) };

    ghost view = { λ w. member_of w.clause w.source };
}

impl Waiting {
    /// The input of this number.
    pub fn given(alloc: Global, clause: &Clause, number: u32) -> Result<Waiting, Memory>
        ensures { IfOk result (λ waiting. waiting ≡ record { clause = clause.now; origin = Input number }) }
    {
        Ok(Waiting {
            clause: PackedClause::new(alloc, clause)?,
            source: Source::Given(number),
        })
    }

    /// What was made from the members of these numbers.
    pub fn inferred(first: u32, second: u32, made: Made) -> Waiting
        ensures { result ≡ named first second made }
    {
        Waiting {
            clause: made.clause,
            source: Source::Made(first, second, made.subst),
        }
    }

    /// Whether its clause is empty.
    pub fn is_empty(&self) -> bool
        ensures { IsTrue result ↔ (self.now.clause.lits ≡ []) }
    {
        self.clause.is_empty()
    }

    /// A sum of its clause.
    pub fn sum(&self) -> u64 {
        self.clause.sum()
    }

    /// Its clause.
    pub fn clause(&self, alloc: Global) -> Result<Clause, Memory>
        ensures { IfOk result (λ clause. clause ≡ self.now.clause) }
    {
        self.clause.unpack(alloc)
    }

    /// The member again.
    pub fn member(&self, alloc: Global) -> Result<Member, Memory>
        ensures { IfOk result (λ member. member ≡ self.now) }
    {
        let origin = origin_from(alloc, &self.source)?;
        Ok(Member {
            clause: self.clause.unpack(alloc)?,
            origin,
        })
    }

    /// Whether it has the clause of the other.
    pub fn has_clause_of(&self, other: &Waiting) -> bool
        ensures { IsTrue result → self.now.clause ≡ other.now.clause }
    {
        self.clause.is(&other.clause)
    }
}

// The origin that is told so.
fn origin_from(alloc: Global, source: &Source) -> Result<Origin, Memory>
    ensures { IfOk result (λ origin. origin ≡ origin_of source.now) }
{
    match source {
        Source::Given(number) => Ok(Origin::Input(*number)),
        Source::Made(first, second, images) => Ok(Origin::Inferred(
            *first,
            *second,
            Subst {
                images: images.unpack(alloc)?,
            },
        )),
    }
}
