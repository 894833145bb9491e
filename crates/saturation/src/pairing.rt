//! Inferences from members, with their origins.
ghost use Rattle.std.specs.Prelude.{OnOk};
ghost use Rattle.superpose.specs.Drafts.{IsClause};
ghost use Rattle.superpose.specs.Used.{AreUsed};
ghost use Rattle.saturation.specs.code.Named.{AreNamed, FollowFromOne, FollowIf};

use crate::inferences::Inferences;
use crate::waiting::Waiting;
use clause_form::Clause;
use fof_terms::Signature;
use std::alloc::Global;
use superpose::{Made, Used};
use tptp_base::{List, Memory};

/// A clause, its number as a member, and what inferences use of it.
#[derive(Clone, Copy)]
pub struct Premise<'a> {
    pub clause: &'a Clause,
    pub used: &'a Used,
    pub number: u32,
}

/// Adds the inferences from the clause alone.
pub fn add_alone<R: Inferences>(
    alloc: Global,
    rules: &R,
    signature: &Signature,
    c: &Premise<'_>,
    members: &mut List<Waiting>,
) -> Result<(), Memory>
    requires c { IsClause signature.now c.now.clause.now }
    requires used { AreUsed c.now.clause.now.lits c.now.used.now }
    ensures { OnOk result (FollowFromOne signature.now c.now.clause.now c.now.number members.old members.new) }
{
    let mut made = List::new(alloc);
    rules.add_from_one(alloc, signature, c.clause, c.used, &mut made)?;
    name_all(made, c.number, c.number, members)
}

/// Adds the inferences from the two clauses, if it is wanted.
pub fn add_pair<R: Inferences>(
    alloc: Global,
    rules: &R,
    signature: &Signature,
    wanted: bool,
    c: &Premise<'_>,
    d: &Premise<'_>,
    members: &mut List<Waiting>,
) -> Result<(), Memory>
    requires c { IsClause signature.now c.now.clause.now }
    requires d { IsClause signature.now d.now.clause.now }
    requires used_of_c { AreUsed c.now.clause.now.lits c.now.used.now }
    requires used_of_d { AreUsed d.now.clause.now.lits d.now.used.now }
    ensures { OnOk result (FollowIf wanted signature.now c.now.clause.now d.now.clause.now c.now.number d.now.number
        members.old members.new) }
{
    if !wanted {
        return Ok(());
    }
    let mut made = List::new(alloc);
    rules.add_from_two(
        alloc, signature, c.clause, c.used, d.clause, d.used, &mut made,
    )?;
    name_all(made, c.number, d.number, members)
}

// Adds the clauses that were made from the two members of these numbers.
fn name_all(
    mut made: List<Made>,
    first: u32,
    second: u32,
    members: &mut List<Waiting>,
) -> Result<(), Memory>
    ensures { OnOk result (AreNamed made first second members.old members.new) }
{
    while let Some(next) = made.pop() {
        members.push(Waiting::inferred(first, second, next))?;
    }
    Ok(())
}
