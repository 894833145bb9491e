//! Parents that say what a literal of the line stands for.
ghost use Rattle.std.specs.Prelude.{◌≡◌, ◌↔◌, ◌+◌, ◌<◌, ◌++◌, ◌∷◌, [], ℕ, length, IfOk, IsTrue};
ghost use Rattle.fof_terms.specs.declared.form.Form.{Atom as Stated};
ghost use Rattle.split_defs.specs.SplitRule.{name_lit, AllName, HasName};
ghost use Rattle.split_defs.specs.code.SplitSearch.{IsNamed, IsPlaceOfName};
ghost use Rattle.clause_form.specs.Paths.{forms_of};

use clause_form::{AtomOf, Clause, Lit, Parent, as_clause};
use fof_terms::{Form, SymId};
use std::alloc::Global;
use tptp_base::{List, Memory};

/// The parents that say what a literal of the line stands for, by their numbers, and what each stands for.
#[derive(Drop)]
pub struct Named {
    pub numbers: List<usize>,
    pub clauses: List<Clause>,
}

/// All parents that say what a literal of the line stands for.
pub fn all_named(alloc: Global, parents: &[Parent], line: &Clause) -> Result<Named, Memory>
    ensures { IfOk result (λ named.
        AllName (forms_of parents.now) line.now (length parents.now) named.numbers named.clauses) }
{
    let numbers = List::new(alloc);
    let clauses = List::new(alloc);
    let mut named = Named { numbers, clauses };
    for i in 0..parents.len() {
        named = with_parent(alloc, parents, line, i, named)?;
    }
    Ok(named)
}

// The same among one parent more.
fn with_parent(
    alloc: Global,
    parents: &[Parent],
    line: &Clause,
    i: usize,
    named: Named,
) -> Result<Named, Memory>
    requires there { i < length parents.now }
    requires named { AllName (forms_of parents.now) line.now i named.numbers named.clauses }
    ensures { IfOk result (λ more. AllName (forms_of parents.now) line.now (i + 1) more.numbers more.clauses) }
{
    let found = named_by(alloc, &parents[i].form, line)?;
    match found {
        Some(clause) => with_clause(named, i, clause),
        None => Ok(named),
    }
}

// One parent more, and what it names.
fn with_clause(named: Named, i: usize, clause: Clause) -> Result<Named, Memory>
    ensures { IfOk result (λ more. (more.numbers ≡ named.numbers ++ i ∷ [])
        × (more.clauses ≡ named.clauses ++ clause ∷ [])) }
{
    let Named {
        mut numbers,
        mut clauses,
    } = named;
    numbers.push(i)?;
    clauses.push(clause)?;
    Ok(Named { numbers, clauses })
}

// The clause that a literal of the line stands for by the formula.
fn named_by(alloc: Global, form: &Form, line: &Clause) -> Result<Option<Clause>, Memory>
    ensures { IfOk result (IsNamed line.now form.now) }
{
    match form {
        Form::Iff(name, meaning) => {
            if is_name(line, name.get()) {
                as_clause(alloc, meaning.get())
            } else {
                Ok(None)
            }
        }
        _ => Ok(None),
    }
}

// Whether the formula is a predicate without arguments that is a literal of the line.
fn is_name(line: &Clause, form: &Form) -> bool
    ensures { IsTrue result ↔ ((q : ℕ) × (form.now ≡ Stated q []) × HasName line.now q) }
{
    let Form::Atom(symbol, args) = form else {
        return false;
    };
    if !args.is_empty() {
        return false;
    }
    match place_of_name(line.lits.as_slice(), *symbol) {
        Some(_) => true,
        None => false,
    }
}

/// The place at which the predicate without arguments stands as a literal; None exactly where it doesn't.
pub fn place_of_name(lits: &[Lit], symbol: SymId) -> Option<usize>
    ensures { IsPlaceOfName lits.now symbol result }
{
    for i in 0..lits.len() {
        if is_name_lit(&lits[i], symbol) {
            return Some(i);
        }
    }
    None
}

// Whether the literal states the predicate without arguments.
fn is_name_lit(lit: &Lit, symbol: SymId) -> bool
    ensures { IsTrue result ↔ (lit.now ≡ name_lit symbol) }
{
    match &lit.atom {
        AtomOf::Pred(other, args) => lit.positive && *other == symbol && args.is_empty(),
        _ => false,
    }
}
