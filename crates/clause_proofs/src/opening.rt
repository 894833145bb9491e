ghost use Rattle.std.specs.Prelude.{◌≡◌, Some, IfOk};
ghost use Rattle.clause_form.specs.declared.clause.Clause.{Clause as Disjunction};
ghost use Rattle.clause_form.specs.ClauseView.{clause_of};
ghost use Rattle.clause_proofs.specs.Bodies.{HasClause, IsOpening};

use clause_form::{Clause, as_clause};
use fof_terms::Form;
use std::alloc::Global;
use tptp_base::Memory;

/// A clause, and how its formula has it: under the quantifiers stands the Or of the literals, or the one literal alone.
#[derive(Drop)]
pub struct Opened {
    pub clause: Clause,
    pub is_or: bool,
}

/// The clause that the formula is, and how the formula has it. None exactly where it is none.
pub fn open_clause(alloc: Global, form: &Form) -> Result<Option<Opened>, Memory>
    ensures { IfOk result (λ found. IsOpening form.now found) }
{
    match as_clause(alloc, form)? {
        Some(clause) => {
            let is_or = has_or(form);
            Ok(Some(Opened { clause, is_or }))
        }
        None => Ok(None),
    }
}

/// The clause that the formula is, which is one.
pub fn known_clause(alloc: Global, form: &Form) -> Result<Opened, Memory>
    requires { (c : Disjunction) × (clause_of form.now ≡ Some c) }
    ensures { IfOk result (λ opened. IsOpening form.now (Some opened)) }
{
    match open_clause(alloc, form)? {
        Some(opened) => Ok(opened),
        None => unreachable!(),
    }
}

// Whether a disjunction stands under the quantifiers.
fn has_or(form: &Form) -> bool
    ensures { (c : Disjunction) → clause_of form.now ≡ Some c → HasClause form.now c result }
{
    match form {
        Form::All(_, body) => has_or(body.get()),
        Form::Or(_) => true,
        _ => false,
    }
}
