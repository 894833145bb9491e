//! The entries by which a theory takes a line that defines a predicate.
ghost use Rattle.std.specs.Prelude.{◌≡◌, ◌<◌, ◌≤◌, ◌+◌, ◌^◌, ℕ, List as ListOf, [], ◌∷◌, Some, length, map, IfOk};
ghost use Rattle.fof_terms.specs.Sorts.{binder_depth};
ghost use Rattle.fof_terms.specs.declared.term.Term.{Var};
ghost use Rattle.fof_terms.specs.declared.form.Form.{Form as Formula, Iff};
ghost use Rattle.clause_rules.specs.Steps.{IsReady};
ghost use Rattle.kernel.specs.declared.entry.Entry.TheVariants.{Name, Lemma};
ghost use Rattle.derive_kit.specs.Derived.{IsDerivedFrom};
ghost use Rattle.split_defs.specs.DefinitionRule.{IsMeaning, Relates};
ghost use Rattle.split_defs.specs.code.DefinitionSearch.{Heads, IsBody, FactOf, RelatesBy};
ghost use Rattle.split_defs.specs.code.Renaming.{renamed};
ghost use Rattle.clause_proofs.specs.Closed.{all_tree};
ghost use Rattle.split_defs.specs.code.Trees.{turned_tree, forth_tree, back_tree, under_fact};

use crate::arguments::names_of;
use crate::renaming::rename;
use derive_kit::{Part, all_i, hyp, iff_i, iff_l, iff_r, imp_e, imp_i, instance_of};
use fof_terms::{Form, SymId, Term, copy_terms};
use kernel::{Entry, Proof};
use proof_check::Theory;
use std::alloc::Global;
use tptp_base::{Boxed, List, Memory};

/// The entries of a line that defines a predicate: the head is the predicate at variables, and the body relates it to
/// what it means.
pub fn predicate_entries(
    alloc: Global,
    theory: &Theory,
    symbol: SymId,
    first: bool,
    line: &Form,
    body: &Form,
    head: &Form,
    meaning: &Form,
) -> Result<List<Entry>, Memory>
    requires line { IsReady theory.now.vocabulary line.now }
    requires body { IsBody line.now body.now }
    requires heads { Heads theory.now head.now meaning.now symbol }
    requires relates { Relates first head.now meaning.now body.now }
    ensures { IfOk result (λ entries. IsDerivedFrom theory.now [] entries line.now) }
{
    let Form::Atom(_, args) = head else {
        unreachable!()
    };
    let args = args.as_slice();
    let own = over_arguments(alloc, args, meaning)?;
    let fact = at_arguments(alloc, theory.len(), args)?;
    let inner = related(alloc, body, first, fact)?;
    let whole = under_all(alloc, line, inner)?;
    name_entries(alloc, symbol, own, whole)
}

// The meaning over the arguments of the predicate, which are these variables.
fn over_arguments(alloc: Global, args: &[Term], meaning: &Form) -> Result<Boxed<Form>, Memory>
    requires { (k : ℕ) × (xs : ListOf ℕ) × (args.now ≡ map Var xs) × IsMeaning k xs meaning.now
        × (length xs + binder_depth meaning.now < 2 ^ 32) }
    ensures { IfOk result (λ own. (xs : ListOf ℕ) → args.now ≡ map Var xs → own ≡ renamed xs 0 meaning.now) }
{
    match names_of(alloc, args)? {
        Some(names) => Ok(Boxed::new(alloc, rename(alloc, &names, meaning, 0)?)?),
        None => unreachable!(),
    }
}

/// The instance at the arguments of the formula of that number.
pub fn at_arguments(alloc: Global, number: u64, args: &[Term]) -> Result<Part, Memory>
    ensures { IfOk result (FactOf number args.now) }
{
    let whole = Boxed::new(alloc, Proof::Line(number))?;
    instance_of(alloc, whole, copy_terms(alloc, args)?)
}

// The body, which relates the head to its meaning, by their equivalence.
fn related(alloc: Global, body: &Form, first: bool, fact: Part) -> Result<Part, Memory>
    requires { (head : Formula) × (meaning : Formula) × Relates first head meaning body.now }
    ensures { IfOk result (RelatesBy first body.now fact) }
{
    match body {
        Form::Iff(left, right) => {
            if first {
                Ok(fact)
            } else {
                turned(alloc, left.get(), right.get(), fact)
            }
        }
        Form::Imp(left, right) => {
            if first {
                forth(alloc, left.get(), right.get(), fact)
            } else {
                back(alloc, left.get(), right.get(), fact)
            }
        }
        _ => unreachable!(),
    }
}

// The equivalence of the left formula and the right one, by that of the right one and the left.
fn turned(alloc: Global, left: &Form, right: &Form, fact: Part) -> Result<Part, Memory>
    ensures { IfOk result (λ made. made ≡ turned_tree left.now right.now fact) }
{
    let to = iff_r(alloc, hyp(alloc, 1)?, hyp(alloc, 0)?)?;
    let from = iff_l(alloc, hyp(alloc, 1)?, hyp(alloc, 0)?)?;
    let rest = iff_i(alloc, left.copy(alloc)?, right.copy(alloc)?, to, from)?;
    by_fact(alloc, fact, equivalence(alloc, right, left)?, rest)
}

// That the left formula implies the right one, by their equivalence.
fn forth(alloc: Global, left: &Form, right: &Form, fact: Part) -> Result<Part, Memory>
    ensures { IfOk result (λ made. made ≡ forth_tree left.now right.now fact) }
{
    let to = iff_l(alloc, hyp(alloc, 1)?, hyp(alloc, 0)?)?;
    let rest = imp_i(alloc, left.copy(alloc)?, to)?;
    by_fact(alloc, fact, equivalence(alloc, left, right)?, rest)
}

// That the left formula implies the right one, by the equivalence of the right one and the left.
fn back(alloc: Global, left: &Form, right: &Form, fact: Part) -> Result<Part, Memory>
    ensures { IfOk result (λ made. made ≡ back_tree left.now right.now fact) }
{
    let to = iff_r(alloc, hyp(alloc, 1)?, hyp(alloc, 0)?)?;
    let rest = imp_i(alloc, left.copy(alloc)?, to)?;
    by_fact(alloc, fact, equivalence(alloc, right, left)?, rest)
}

// What `rest` shows under the formula, by the fact, which shows the formula.
fn by_fact(alloc: Global, fact: Part, form: Form, rest: Part) -> Result<Part, Memory>
    ensures { IfOk result (λ made. made ≡ under_fact form rest fact) }
{
    imp_e(alloc, imp_i(alloc, form, rest)?, fact)
}

// The equivalence as a formula.
fn equivalence(alloc: Global, left: &Form, right: &Form) -> Result<Form, Memory>
    ensures { IfOk result (λ made. made ≡ Iff left.now right.now) }
{
    let left = Boxed::new(alloc, left.copy(alloc)?)?;
    let right = Boxed::new(alloc, right.copy(alloc)?)?;
    Ok(Form::Iff(left, right))
}

/// The line, by a proof of what stands under its quantifiers.
pub fn under_all(alloc: Global, line: &Form, part: Part) -> Result<Part, Memory>
    ensures { IfOk result (λ made. (b : Formula) (is : IsBody line.now b) → made ≡ all_tree is.sorts part) }
{
    match line {
        Form::All(sort, body) => {
            let inner = under_all(alloc, body.get(), part)?;
            all_i(alloc, *sort, inner)
        }
        _ => Ok(part),
    }
}

// That the predicate names the formula, and the line.
fn name_entries(
    alloc: Global,
    symbol: SymId,
    own: Boxed<Form>,
    whole: Part,
) -> Result<List<Entry>, Memory>
    ensures { IfOk result (λ entries. entries ≡ Name symbol own ∷ Lemma whole ∷ []) }
{
    let mut entries = List::new(alloc);
    entries.push(Entry::Name(symbol, own.into_inner()))?;
    entries.push(Entry::Lemma(whole.into_inner()))?;
    Ok(entries)
}
