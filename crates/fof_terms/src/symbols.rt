// The symbols that stand in terms and formulas.
ghost use Rattle.std.specs.Prelude.{OnOk};
ghost use Rattle.std.specs.List.{list_any};
ghost use Rattle.fof_terms.specs.Occurs.{occurs_in, occurs_in_term};
ghost use Rattle.fof_terms.specs.Standing.{AppendsOnly, GainsOnly};

use crate::form::Form;
use crate::term::{SymId, Term};
use tptp_base::{List, Memory};

/// Appends the symbols that stand in the term to the list, and no others; only some of them, where memory runs out.
#[cycle(symbols_of_term)]
pub fn symbols_of_term(term: &Term, symbols: &mut List<SymId>) -> Result<(), Memory>
    ensures ok { OnOk result (GainsOnly symbols.old (λ symbol. occurs_in_term symbol term.now) symbols.new) }
    ensures appended { AppendsOnly symbols.old (λ symbol. occurs_in_term symbol term.now) symbols.new }
{
    match term {
        Term::Var(_) => Ok(()),
        Term::App(head, args) => {
            symbols.push(*head)?;
            symbols_of_terms(args.as_slice(), symbols)?;
            Ok(())
        }
    }
}

/// Appends the symbols that stand in the terms to the list, and no others; only some of them, where memory runs out.
#[cycle(symbols_of_term)]
pub fn symbols_of_terms(terms: &[Term], symbols: &mut List<SymId>) -> Result<(), Memory>
    ensures ok { OnOk result
        (GainsOnly symbols.old (λ symbol. list_any (occurs_in_term symbol) terms.now) symbols.new) }
    ensures appended { AppendsOnly symbols.old (λ symbol. list_any (occurs_in_term symbol) terms.now) symbols.new }
{
    for term in terms {
        symbols_of_term(term, symbols)?;
    }
    Ok(())
}

/// Appends the symbols that stand in the formula to the list, and no others; only some of them, where memory runs out.
#[cycle(symbols_of)]
pub fn symbols_of(form: &Form, symbols: &mut List<SymId>) -> Result<(), Memory>
    ensures ok { OnOk result (GainsOnly symbols.old (λ symbol. occurs_in symbol form.now) symbols.new) }
    ensures appended { AppendsOnly symbols.old (λ symbol. occurs_in symbol form.now) symbols.new }
{
    match form {
        Form::Atom(head, args) => {
            symbols.push(*head)?;
            symbols_of_terms(args.as_slice(), symbols)?;
            Ok(())
        }
        Form::Eq(left, right) => {
            symbols_of_term(left, symbols)?;
            symbols_of_term(right, symbols)?;
            Ok(())
        }
        Form::Not(body) | Form::All(_, body) | Form::Ex(_, body) => symbols_of(body.get(), symbols),
        Form::And(members) | Form::Or(members) => symbols_of_all(members.as_slice(), symbols),
        Form::Imp(left, right) | Form::Iff(left, right) => {
            symbols_of(left.get(), symbols)?;
            symbols_of(right.get(), symbols)?;
            Ok(())
        }
    }
}

/// Appends the symbols that stand in the formulas to the list, and no others; only some of them, where memory runs out.
#[cycle(symbols_of)]
pub fn symbols_of_all(forms: &[Form], symbols: &mut List<SymId>) -> Result<(), Memory>
    ensures ok { OnOk result (GainsOnly symbols.old (λ symbol. list_any (occurs_in symbol) forms.now) symbols.new) }
    ensures appended { AppendsOnly symbols.old (λ symbol. list_any (occurs_in symbol) forms.now) symbols.new }
{
    for form in forms {
        symbols_of(form, symbols)?;
    }
    Ok(())
}
