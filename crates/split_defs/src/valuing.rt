//! The entries by which a theory takes a line that defines a function.
ghost use Rattle.std.specs.Prelude.{◌≡◌, ◌<◌, ◌≤◌, ◌+◌, ◌^◌, ℕ, List as ListOf, [], ◌∷◌, None, Some, length, map};
ghost use Rattle.std.specs.Prelude.{slice_get, IfNone, IfOk, IfSome};
ghost use Rattle.fof_terms.specs.Lift.{lift_term_reach};
ghost use Rattle.fof_terms.specs.declared.signature.Symbol.{Symbol as Sign};
ghost use Rattle.fof_terms.specs.declared.term.Term.{Var};
ghost use Rattle.clause_rules.specs.Steps.{IsReady};
ghost use Rattle.kernel.specs.declared.entry.Entry.TheVariants.{Choice, Lemma};
ghost use Rattle.derive_kit.specs.Derived.{IsDerivedFrom};
ghost use Rattle.split_defs.specs.DefinitionRule.{IsValue, Equates};
ghost use Rattle.split_defs.specs.code.DefinitionSearch.{Values, IsBody};
ghost use Rattle.split_defs.specs.code.Renaming.{renamed_term};
ghost use Rattle.split_defs.specs.code.Trees.{is_value, valued_tree, value_tree};

use crate::arguments::names_of;
use crate::defining::{at_arguments, under_all};
use crate::renaming::rename_term;
use clause_proofs::refl;
use derive_kit::{Part, ex_i, imp_e, subst};
use fof_terms::{Form, Signature, SortId, SymId, Term, lift_term};
use kernel::Entry;
use proof_check::Theory;
use std::alloc::Global;
use tptp_base::{Boxed, List, Memory};

/// The entries of a line that defines a function: the head is the function at variables, and the body equates it to its
/// value.
pub fn function_entries(
    alloc: Global,
    theory: &Theory,
    symbol: SymId,
    first: bool,
    line: &Form,
    body: &Form,
    head: &Term,
    value: &Term,
) -> Result<List<Entry>, Memory>
    requires line { IsReady theory.now.vocabulary line.now }
    requires body { IsBody line.now body.now }
    requires values { Values theory.now head.now value.now symbol }
    requires equates { Equates first head.now value.now body.now }
    ensures { IfOk result (λ entries. IsDerivedFrom theory.now [] entries line.now) }
{
    let Term::App(_, args) = head else {
        unreachable!()
    };
    let Some(result) = result_of(theory.signature(), symbol) else {
        unreachable!()
    };
    let args = args.as_slice();
    let value_of_arguments = value_over(alloc, args, value)?;
    let own = hole(alloc, &value_of_arguments)?;
    let fact = at_arguments(alloc, theory.len(), args)?;
    let inner = equated(alloc, result, first, head, value, fact)?;
    let whole = under_all(alloc, line, inner)?;
    choice_entries(alloc, symbol, own, whole)
}

// The sort of the symbol's result.
fn result_of(signature: &Signature, symbol: SymId) -> Option<SortId>
    ensures exists { IfSome result (λ sort. sort < length signature.now.sorts) }
    ensures is { IfSome result (λ sort. (s : Sign) → slice_get signature.now.symbols symbol ≡ Some s
        → s.result ≡ sort) }
    ensures none { IfNone result (slice_get signature.now.symbols symbol ≡ None) }
{
    signature.is_vocabulary();
    match signature.symbol(symbol) {
        Some(found) => Some(found.result),
        None => None,
    }
}

// The value over the arguments of the function, which are these variables.
fn value_over(alloc: Global, args: &[Term], value: &Term) -> Result<Term, Memory>
    requires { (k : ℕ) × (xs : ListOf ℕ) × (args.now ≡ map Var xs) × IsValue k xs value.now × (length xs < 2 ^ 32) }
    ensures { IfOk result (λ own. (xs : ListOf ℕ) → args.now ≡ map Var xs → own ≡ renamed_term xs 0 value.now) }
{
    match names_of(alloc, args)? {
        Some(names) => rename_term(alloc, &names, value, 0),
        None => unreachable!(),
    }
}

// That the nearest variable is the value.
fn hole(alloc: Global, value: &Term) -> Result<Boxed<Form>, Memory>
    requires { lift_term_reach 1 0 value.now < 2 ^ 32 }
    ensures { IfOk result (λ made. made ≡ is_value value.now) }
{
    let moved = lift_term(alloc, value, 1, 0)?;
    Ok(Boxed::new(alloc, Form::Eq(Term::Var(0), moved))?)
}

// The equation, which has the head first or second, by the choice of the value.
fn equated(
    alloc: Global,
    sort: SortId,
    first: bool,
    head: &Term,
    value: &Term,
    fact: Part,
) -> Result<Part, Memory>
    requires head { lift_term_reach 1 0 head.now < 2 ^ 32 }
    requires value { lift_term_reach 1 0 value.now < 2 ^ 32 }
    ensures { IfOk result (λ made. made ≡ valued_tree first sort head.now value.now fact) }
{
    let equal = by_choice(alloc, sort, value, fact)?;
    if first {
        return Ok(equal);
    }
    let itself = refl(alloc, head.copy(alloc)?)?;
    subst(alloc, sort, hole(alloc, head)?.into_inner(), equal, itself)
}

// The equation of the head and the value, by the choice of the value.
fn by_choice(alloc: Global, sort: SortId, value: &Term, fact: Part) -> Result<Part, Memory>
    requires { lift_term_reach 1 0 value.now < 2 ^ 32 }
    ensures { IfOk result (λ made. made ≡ value_tree sort value.now fact) }
{
    let itself = refl(alloc, value.copy(alloc)?)?;
    let body = hole(alloc, value)?;
    let some = ex_i(alloc, sort, body.into_inner(), value.copy(alloc)?, itself)?;
    imp_e(alloc, fact, some)
}

// That the function chooses for the formula, and the line.
fn choice_entries(
    alloc: Global,
    symbol: SymId,
    own: Boxed<Form>,
    whole: Part,
) -> Result<List<Entry>, Memory>
    ensures { IfOk result (λ entries. entries ≡ Choice symbol own ∷ Lemma whole ∷ []) }
{
    let mut entries = List::new(alloc);
    entries.push(Entry::Choice(symbol, own.into_inner()))?;
    entries.push(Entry::Lemma(whole.into_inner()))?;
    Ok(entries)
}
