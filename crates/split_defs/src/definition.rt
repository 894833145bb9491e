//! Lines that define a new symbol.
ghost use Rattle.std.specs.Prelude.{◌≡◌, ◌↔◌, ◌≤◌, ◌<◌, ◌^◌, IfOk, IsTrue};
ghost use Rattle.fof_terms.specs.Sorts.{binder_depth};
ghost use Rattle.fof_terms.specs.declared.form.Form.{Form as Formula};
ghost use Rattle.clause_rules.specs.Steps.{IsReady};
ghost use Rattle.split_defs.specs.DefinitionRule.{IsNew, Defines};
ghost use Rattle.split_defs.specs.code.DefinitionSearch.{Heads, Values, HeadsAt, ValuesAt, IsFoundSymbol, IsBody};
ghost use Rattle.split_defs.specs.DefinitionSearch.{IsFoundDefinition};

use crate::arguments::names_of;
use crate::just::SplitJust;
use crate::speaking::{form_speaks, term_speaks};
use fof_terms::{Form, Kind, SymId, Symbol, Term, occurs, occurs_in_term};
use proof_check::Theory;
use std::alloc::Global;
use tptp_base::Memory;

/// A justification that the line defines a new symbol; None exactly where it defines none.
pub fn definition_step(
    alloc: Global,
    theory: &Theory,
    line: &Form,
) -> Result<Option<SplitJust>, Memory>
    requires { IsReady theory.now.vocabulary line.now }
    ensures { IfOk result (IsFoundDefinition (Defines theory.now line.now)) }
{
    match body_of(line) {
        Form::Iff(left, right) | Form::Imp(left, right) => {
            relation(alloc, theory, left.get(), right.get())
        }
        Form::Eq(left, right) => equation(alloc, theory, left, right),
        _ => Ok(None),
    }
}

/// What stands under all universal quantifiers around it.
pub fn body_of(form: &Form) -> &Form
    ensures body { IsBody form.now result.now }
    ensures shallow { binder_depth result.now ≤ binder_depth form.now }
{
    match form {
        Form::All(_, body) => body_of(body.get()),
        _ => form,
    }
}

// A definition of a predicate by the two sides of an equivalence or an implication.
fn relation(
    alloc: Global,
    theory: &Theory,
    left: &Form,
    right: &Form,
) -> Result<Option<SplitJust>, Memory>
    requires left { binder_depth left.now < 2 ^ 32 }
    requires right { binder_depth right.now < 2 ^ 32 }
    ensures { IfOk result (IsFoundDefinition (HeadsAt theory.now left.now right.now)) }
{
    if let Some(symbol) = headed(alloc, theory, left, right)? {
        return Ok(Some(SplitJust::Definition {
            symbol,
            first: true,
        }));
    }
    match headed(alloc, theory, right, left)? {
        Some(symbol) => Ok(Some(SplitJust::Definition {
            symbol,
            first: false,
        })),
        None => Ok(None),
    }
}

// A definition of a function by the two sides of an equation.
fn equation(
    alloc: Global,
    theory: &Theory,
    left: &Term,
    right: &Term,
) -> Result<Option<SplitJust>, Memory>
    ensures { IfOk result (IsFoundDefinition (ValuesAt theory.now left.now right.now)) }
{
    if let Some(symbol) = valued(alloc, theory, left, right)? {
        return Ok(Some(SplitJust::Definition {
            symbol,
            first: true,
        }));
    }
    match valued(alloc, theory, right, left)? {
        Some(symbol) => Ok(Some(SplitJust::Definition {
            symbol,
            first: false,
        })),
        None => Ok(None),
    }
}

// The new predicate that the first formula has at variables, and whose meaning the second one says.
fn headed(
    alloc: Global,
    theory: &Theory,
    head: &Form,
    meaning: &Form,
) -> Result<Option<SymId>, Memory>
    requires { binder_depth meaning.now < 2 ^ 32 }
    ensures { IfOk result (IsFoundSymbol (Heads theory.now head.now meaning.now)) }
{
    let Form::Atom(symbol, args) = head else {
        return Ok(None);
    };
    if !is_new(theory, Kind::Predicate, *symbol) || occurs(*symbol, meaning) {
        return Ok(None);
    }
    match names_of(alloc, args.as_slice())? {
        Some(names) => {
            if form_speaks(&names, meaning, 0) {
                Ok(Some(*symbol))
            } else {
                Ok(None)
            }
        }
        None => Ok(None),
    }
}

// The new function that the first term has at variables, and whose value the second one is.
fn valued(
    alloc: Global,
    theory: &Theory,
    head: &Term,
    value: &Term,
) -> Result<Option<SymId>, Memory>
    ensures { IfOk result (IsFoundSymbol (Values theory.now head.now value.now)) }
{
    let Term::App(symbol, args) = head else {
        return Ok(None);
    };
    if !is_new(theory, Kind::Function, *symbol) || occurs_in_term(*symbol, value) {
        return Ok(None);
    }
    match names_of(alloc, args.as_slice())? {
        Some(names) => {
            if term_speaks(&names, value, 0) {
                Ok(Some(*symbol))
            } else {
                Ok(None)
            }
        }
        None => Ok(None),
    }
}

// Whether the symbol is of this kind and stands in no formula of the theory.
fn is_new(theory: &Theory, kind: Kind, number: SymId) -> bool
    ensures { IsTrue result ↔ IsNew theory.now kind number }
{
    match theory.signature().symbol(number) {
        Some(symbol) => has_kind(symbol, kind) && !theory.uses(number),
        None => false,
    }
}

// Whether the symbol is of the kind.
fn has_kind(symbol: &Symbol, kind: Kind) -> bool
    ensures { IsTrue result ↔ (symbol.now.kind ≡ kind) }
{
    symbol.kind == kind
}
