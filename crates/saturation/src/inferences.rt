//! What makes inferences.
ghost use Rattle.std.specs.Prelude.{IfOk, OnOk};
ghost use Rattle.superpose.specs.Drafts.{IsClause};
ghost use Rattle.superpose.specs.Made.{AddsFromOne, AddsFromTwo};
ghost use Rattle.superpose.specs.Used.{AreUsed};

use clause_form::Clause;
use fof_terms::Signature;
use std::alloc::Global;
use superpose::{Made, Used};
use tptp_base::{List, Memory};

/// What makes the most general inferences from one clause and from two. What inferences use of a clause is computed
/// once, for the indexes too. The other methods are given it: it says at which literals, sides and places to look.
pub trait Inferences {
    /// What inferences use of the clause.
    fn used_of(&self, alloc: Global, clause: &Clause) -> Result<Used, Memory>
        ensures { IfOk result (λ used. AreUsed clause.now.lits used) };

    /// Adds the most general clauses that factoring, equality resolution and equality factoring make of the clause.
    fn add_from_one(
        &self,
        alloc: Global,
        signature: &Signature,
        c: &Clause,
        used: &Used,
        made: &mut List<Made>,
    ) -> Result<(), Memory>
        requires clause { IsClause signature.now c.now }
        requires used { AreUsed c.now.lits used.now }
        ensures { OnOk result (AddsFromOne signature.now c.now made.old made.new) };

    /// Adds the most general clauses that resolution and superposition make, where the positive literal or the equation
    /// is that of the first clause.
    fn add_from_two(
        &self,
        alloc: Global,
        signature: &Signature,
        c: &Clause,
        used_of_c: &Used,
        d: &Clause,
        used_of_d: &Used,
        made: &mut List<Made>,
    ) -> Result<(), Memory>
        requires first { IsClause signature.now c.now }
        requires second { IsClause signature.now d.now }
        requires used_of_first { AreUsed c.now.lits used_of_c.now }
        requires used_of_second { AreUsed d.now.lits used_of_d.now }
        ensures { OnOk result (AddsFromTwo signature.now c.now d.now made.old made.new) };
}
