// The first symbol that may stand for an existential variable.
ghost use Rattle.std.specs.Prelude.{◌≡◌, ◌↔◌, ◌<◌, IfOk, IsTrue, length, take, ◌^◌};
ghost use Rattle.fof_terms.specs.Scope.{scope_sorts};
ghost use Rattle.fof_terms.specs.Sorts.{binder_depth};
ghost use Rattle.fof_terms.specs.declared.form.Form.{Ex};
ghost use Rattle.skolem_fresh.specs.Choosing.{IsWithin};
ghost use Rattle.skolem_fresh.specs.Uses.{Fits, value_of as value_in};
ghost use Rattle.skolem_proofs.specs.Choosing.{AreOthers};
ghost use Rattle.function_choices.specs.Choices.{with_its_variable};
ghost use Rattle.function_choices.specs.code.Walked.{IsFound, IsReplaced, IsTried, applied as applied_in};

use crate::alike::all_alike;
use crate::arguments::{needed, outermost_first, variables_for};
use crate::atoms::{Placed, push_atoms, with_variable};
use crate::order::ordered;
use crate::reading::told;
use fof_terms::{Form, Scope, Signature, SortId, SymId, instantiate, sort_of};
use skolem_fresh::{Use, value_of};
use std::alloc::Global;
use tptp_base::{Boxed, List, Memory};

/// The most universal quantifiers around a variable for which a function is chosen.
const MAX_AROUND: u32 = 100;

/// The most atoms with the variable that are looked at.
const MAX_PATTERNS: usize = 8;

// The body of an existential quantifier with the value of a function in place of its variable, by the first of the
// symbols that may stand for it. The function is added. None where none may.
pub(crate) fn replaced(
    alloc: Global,
    sig: &Signature,
    scope: &Scope<'_>,
    outer: u32,
    sort: SortId,
    body: &Form,
    symbols: &[SymId],
    atoms: &[Placed],
    uses: &mut List<Use>,
) -> Result<Option<Boxed<Form>>, Memory>
    requires within { IsWithin sig.now (scope_sorts scope.now) (Ex sort body.now) }
    requires outer { outer ≡ length (scope_sorts scope.now) }
    ensures { IfOk result (λ next.
        IsReplaced sig.now atoms.now symbols.now (scope_sorts scope.now) sort body.now uses.old uses.new next) }
{
    let before = uses.as_slice();
    let found = found(alloc, sig, scope, outer, sort, body, symbols, atoms, before)?;
    let Some(found) = found else {
        return Ok(None);
    };
    let value = value_of(alloc, &found)?;
    let next = Boxed::new(alloc, instantiate(alloc, body, &value)?)?;
    uses.push(found)?;
    Ok(Some(next))
}

// The first of the symbols that may stand for the variable of an existential quantifier over the body.
fn found(
    alloc: Global,
    sig: &Signature,
    scope: &Scope<'_>,
    outer: u32,
    sort: SortId,
    body: &Form,
    symbols: &[SymId],
    atoms: &[Placed],
    before: &[Use],
) -> Result<Option<Use>, Memory>
    requires within { IsWithin sig.now (scope_sorts scope.now) (Ex sort body.now) }
    requires outer { outer ≡ length (scope_sorts scope.now) }
    ensures { IfOk result (λ found.
        IsFound sig.now atoms.now symbols.now (scope_sorts scope.now) before.now sort body.now found) }
{
    if outer > MAX_AROUND {
        return Ok(None);
    }
    let all = outermost_first(alloc, outer)?;
    let all = all.as_slice();
    let needed = needed(alloc, outer, body)?;
    let needed = needed.as_slice();
    let patterns = patterns(alloc, body)?;
    let patterns = first_patterns(patterns.as_slice());
    for symbol in symbols {
        let tried = tried(
            alloc, sig, scope, *symbol, sort, outer, all, needed, patterns, atoms, before,
        )?;
        if let Some(function) = tried {
            return Ok(Some(function));
        }
    }
    Ok(None)
}

// The symbol in place of a variable of that sort, with these universal variables around it, all and those that are
// needed, if it serves: it stands for none before, its sorts fit, and with it each of the patterns is alike to one of
// the atoms.
fn tried(
    alloc: Global,
    sig: &Signature,
    scope: &Scope<'_>,
    symbol: SymId,
    sort: SortId,
    outer: u32,
    all: &[u32],
    needed: &[u32],
    patterns: &[Placed],
    atoms: &[Placed],
    before: &[Use],
) -> Result<Option<Use>, Memory>
    ensures { IfOk result (IsTried sig.now patterns.now atoms.now (scope_sorts scope.now) before.now
        (applied_in sig.now patterns.now atoms.now outer sort all.now needed.now symbol)) }
{
    if !are_others(symbol, before) {
        return Ok(None);
    }
    if !all_alike(patterns, symbol, atoms) {
        return Ok(None);
    }
    let function = applied(
        alloc, sig, symbol, sort, outer, all, needed, patterns, atoms,
    )?;
    if fits(alloc, sig, scope, &function)? {
        return Ok(Some(function));
    }
    Ok(None)
}

// The symbol in place of a variable of that sort, under so many universal quantifiers: at all these variables if it
// takes as many arguments, and else at those that are needed, in the order that the atoms tell.
fn applied(
    alloc: Global,
    sig: &Signature,
    symbol: SymId,
    sort: SortId,
    outer: u32,
    all: &[u32],
    needed: &[u32],
    patterns: &[Placed],
    atoms: &[Placed],
) -> Result<Use, Memory>
    ensures { IfOk result (λ made. made ≡ applied_in sig.now patterns.now atoms.now outer sort all.now needed.now symbol) }
{
    let told = told(alloc, symbol, patterns, atoms)?;
    let variables = variables_for(sig, symbol, outer, all, needed);
    let variables = ordered(alloc, needed, told.as_slice(), variables)?;
    Ok(Use {
        function: symbol,
        variables,
        sort,
    })
}

// The atoms of the body in which the variable of an existential quantifier over it stands.
fn patterns(alloc: Global, body: &Form) -> Result<List<Placed>, Memory>
    requires { binder_depth body.now < 2 ^ 32 }
    ensures { IfOk result (λ found. found ≡ with_its_variable body.now) }
{
    let mut own = List::new(alloc);
    push_atoms(alloc, body, 0, &mut own)?;
    with_variable(alloc, own.as_slice())
}

// The first of the patterns.
fn first_patterns(patterns: &[Placed]) -> &[Placed]
    ensures { result.now ≡ take 8 patterns.now }
{
    if patterns.len() > MAX_PATTERNS {
        &patterns[..MAX_PATTERNS]
    } else {
        patterns
    }
}

// Whether none of the functions is this symbol.
fn are_others(symbol: SymId, uses: &[Use]) -> bool
    ensures { IsTrue result ↔ AreOthers symbol uses.now }
{
    for function in uses {
        if function.function == symbol {
            return false;
        }
    }
    true
}

// Whether the function's sorts fit.
fn fits(alloc: Global, sig: &Signature, scope: &Scope<'_>, function: &Use) -> Result<bool, Memory>
    ensures { IfOk result (λ answer. IsTrue answer ↔ Fits sig.now (scope_sorts scope.now) function.now) }
{
    let value = value_of(alloc, function)?;
    match sort_of(&value, sig, scope) {
        Some(other) => Ok(other == function.sort),
        None => Ok(false),
    }
}
