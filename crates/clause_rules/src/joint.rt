//! Two clauses and the line over one list of variables: those of the line come first and stand for themselves.
ghost use Rattle.std.specs.Prelude.{◌≡◌, ◌≤◌, ◌++◌, length, map, IfOk};
ghost use Rattle.clause_form.specs.Covers.{lit_apart, scope_of};
ghost use Rattle.clause_rules.specs.JointClauses.{IsJoined, IsJoinedOne};
ghost use Rattle.clause_rules.specs.Settled.{IsFit};
ghost use Rattle.clause_rules.specs.Steps.{scope_of_both};

use crate::keeping_apart::apart;
use crate::scopes::scope_of_clause;
use clause_form::{Clause, Lit};
use fof_terms::{Signature, SortId};
use std::alloc::Global;
use tptp_base::{List, Memory};
use unify_terms::Scope;

/// The scope of the line and two clauses, and the literals of the two over it.
#[derive(Drop)]
pub struct Joint {
    pub scope: Scope,
    pub left: List<Lit>,
    pub right: List<Lit>,
}

/// The two clauses over one scope with the line.
pub fn join(
    alloc: Global,
    sig: &Signature,
    line: &Clause,
    left: &Clause,
    right: &Clause,
) -> Result<Joint, Memory>
    requires line { length line.now.sorts ≤ 1000000000 }
    requires left { IsFit sig.now left.now }
    requires right { IsFit sig.now right.now }
    ensures { IfOk result (λ joint. IsJoined line.now left.now right.now joint) }
{
    let shift = line.sorts.len() as u32;
    let further = shift + left.sorts.len() as u32;
    let sorts = joint_sorts(alloc, line, left, right)?;
    let left = kept_apart(alloc, sig, left, shift)?;
    let right = kept_apart(alloc, sig, right, further)?;
    let scope = Scope {
        sorts,
        rigid: shift,
    };
    Ok(Joint { scope, left, right })
}

/// One clause over one scope with the line. There are no literals of a second one.
pub fn join_one(
    alloc: Global,
    sig: &Signature,
    line: &Clause,
    clause: &Clause,
) -> Result<Joint, Memory>
    requires line { length line.now.sorts ≤ 1000000000 }
    requires clause { IsFit sig.now clause.now }
    ensures { IfOk result (λ joint. IsJoinedOne line.now clause.now joint) }
{
    let shift = line.sorts.len() as u32;
    let mut sorts = scope_of_clause(alloc, line)?;
    sorts.append(scope_of_clause(alloc, clause)?)?;
    let left = kept_apart(alloc, sig, clause, shift)?;
    let scope = Scope {
        sorts,
        rigid: shift,
    };
    Ok(Joint {
        scope,
        left,
        right: List::new(alloc),
    })
}

// The sorts of the line and the two clauses.
fn joint_sorts(
    alloc: Global,
    line: &Clause,
    left: &Clause,
    right: &Clause,
) -> Result<List<SortId>, Memory>
    ensures { IfOk result (λ sorts. sorts ≡ scope_of line.now ++ scope_of_both left.now right.now) }
{
    let mut parents = scope_of_clause(alloc, left)?;
    parents.append(scope_of_clause(alloc, right)?)?;
    let mut sorts = scope_of_clause(alloc, line)?;
    sorts.append(parents)?;
    Ok(sorts)
}

/// The literals of a clause, with their variables moved past so many others.
pub fn kept_apart(
    alloc: Global,
    sig: &Signature,
    clause: &Clause,
    by: u32,
) -> Result<List<Lit>, Memory>
    requires fit { IsFit sig.now clause.now }
    requires few { by ≤ 2000000000 }
    ensures { IfOk result (λ lits. lits ≡ map (lit_apart by) clause.now.lits) }
{
    apart(alloc, clause.lits.as_slice(), by)
}
