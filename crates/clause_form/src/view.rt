ghost use Rattle.std.specs.Prelude.{◌≡◌, IfOk, map};
ghost use Rattle.std.specs.Option.{option_map};
ghost use Rattle.clause_form.specs.ClauseView.{view_of, clause_of, all_there, alone_lit, denied as denied_lit};
ghost use Rattle.clause_form.specs.ClauseView.{stated as stated_lit, open_clause};
ghost use Rattle.clause_form.specs.code.ClauseView.{under};

use crate::clause::{AtomOf, Clause, Lit};
use fof_terms::{Form, SortId, copy_terms};
use std::alloc::Global;
use tptp_base::{List, Memory};

/// The clause that the formula is: universal quantifiers over a disjunction of literals or over one literal. None
/// exactly where it is none.
pub fn as_clause(alloc: Global, form: &Form) -> Result<Option<Clause>, Memory>
    ensures { IfOk result (λ found. found ≡ clause_of form.now) }
{
    clause_under(alloc, form, List::new(alloc))
}

// The clause that the formula is under quantifiers over these sorts.
#[tactic(auto, using(crate::proofs::ClauseViewFacts::view_of_equations, crate::proofs::Views::view_rules))]
fn clause_under(alloc: Global, form: &Form, sorts: List<SortId>) -> Result<Option<Clause>, Memory>
    ensures { IfOk result (λ found. found ≡ option_map (under sorts) (clause_of form.now)) }
{
    match form {
        Form::All(sort, body) => {
            let mut sorts = sorts;
            sorts.push(*sort)?;
            clause_under(alloc, body.get(), sorts)
        }
        Form::Or(members) => {
            let lits = all_lits(alloc, members.as_slice())?;
            Ok(with_sorts(sorts, lits))
        }
        Form::Atom(_, _)
        | Form::Eq(_, _)
        | Form::Not(_)
        | Form::And(_)
        | Form::Imp(_, _)
        | Form::Iff(_, _)
        | Form::Ex(_, _) => {
            let lits = one_lit(alloc, form)?;
            Ok(with_sorts(sorts, lits))
        }
    }
}

// The clause of these literals, where they are there.
fn with_sorts(sorts: List<SortId>, lits: Option<List<Lit>>) -> Option<Clause>
    ensures { result ≡ option_map (under sorts) (option_map open_clause lits) }
{
    match lits {
        Some(lits) => Some(Clause { sorts, lits }),
        None => None,
    }
}

// The literals that the formulas are, where each is one.
fn all_lits(alloc: Global, forms: &[Form]) -> Result<Option<List<Lit>>, Memory>
    ensures { IfOk result (λ lits. lits ≡ all_there (map (λ a. (view_of a).lit) forms.now)) }
{
    let mut lits = List::new(alloc);
    for form in forms {
        match as_lit(alloc, form)? {
            Some(lit) => lits.push(lit)?,
            None => return Ok(None),
        }
    }
    Ok(Some(lits))
}

// The literal that the formula is, as a list.
fn one_lit(alloc: Global, form: &Form) -> Result<Option<List<Lit>>, Memory>
    ensures { IfOk result (λ lits. lits ≡ option_map alone_lit (view_of form.now).lit) }
{
    match as_lit(alloc, form)? {
        Some(lit) => {
            let mut lits = List::new(alloc);
            lits.push(lit)?;
            Ok(Some(lits))
        }
        None => Ok(None),
    }
}

/// The literal that the formula is: an atom, an equation, truth, falsehood, or the negation of one of these.
#[tactic(auto, using(crate::proofs::ClauseViewFacts::view_of_equations, crate::proofs::Views::view_rules))]
pub fn as_lit(alloc: Global, form: &Form) -> Result<Option<Lit>, Memory>
    ensures { IfOk result (λ lit. lit ≡ (view_of form.now).lit) }
{
    match form {
        Form::Not(body) => {
            let atom = as_atom(alloc, body.get())?;
            Ok(lit_of(false, atom))
        }
        Form::Atom(_, _)
        | Form::Eq(_, _)
        | Form::And(_)
        | Form::Or(_)
        | Form::Imp(_, _)
        | Form::Iff(_, _)
        | Form::All(_, _)
        | Form::Ex(_, _) => {
            let atom = as_atom(alloc, form)?;
            Ok(lit_of(true, atom))
        }
    }
}

// The literal of that sign, where the atom is there.
fn lit_of(positive: bool, atom: Option<AtomOf>) -> Option<Lit>
    ensures { result ≡ option_map (λ a. record { positive = positive; atom = a }) atom }
{
    match atom {
        Some(atom) => Some(Lit { positive, atom }),
        None => None,
    }
}

// The atom that the formula is.
#[tactic(auto, using(crate::proofs::ClauseViewFacts::view_of_equations, crate::proofs::Views::view_rules))]
fn as_atom(alloc: Global, form: &Form) -> Result<Option<AtomOf>, Memory>
    ensures { IfOk result (λ atom. atom ≡ (view_of form.now).atom) }
{
    match form {
        Form::Atom(symbol, args) => Ok(Some(AtomOf::Pred(
            *symbol,
            copy_terms(alloc, args.as_slice())?,
        ))),
        Form::Eq(left, right) => Ok(Some(AtomOf::Eq(left.copy(alloc)?, right.copy(alloc)?))),
        Form::And(members) => {
            if members.is_empty() {
                Ok(Some(AtomOf::True))
            } else {
                Ok(None)
            }
        }
        Form::Or(members) => {
            if members.is_empty() {
                Ok(Some(AtomOf::False))
            } else {
                Ok(None)
            }
        }
        Form::Not(_) | Form::Imp(_, _) | Form::Iff(_, _) | Form::All(_, _) | Form::Ex(_, _) => {
            Ok(None)
        }
    }
}
