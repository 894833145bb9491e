//! From proofs of the parts to the line.
ghost use Rattle.std.specs.Prelude.{◌≡◌, ◌≤◌, ◌+◌, ◌∷◌, ℕ, true, [], List as ListOf, IfOk};
ghost use Rattle.std.specs.Prelude.{drop, flat_map, length, take};
ghost use Rattle.fof_terms.specs.declared.form.Form.{Form as Formula, And};
ghost use Rattle.fof_terms.specs.Sorts.{Sorted};
ghost use Rattle.clause_form.specs.Norm.{norm_of};
ghost use Rattle.clause_form.specs.Sizes.{norm_size_of};
ghost use Rattle.kernel.specs.Proves.{Proves};
ghost use Rattle.kernel.specs.Statements.{Statements};
ghost use Rattle.norm_proofs.specs.Placed.{SortedSomewhere};
ghost use Rattle.norm_parts.specs.Parts.{parts_of};
ghost use Rattle.norm_parts.specs.Shown.{ShowEach};
ghost use Rattle.norm_parts.specs.code.Gathering.{AreGathered, IsGathered, IsMember, leaf_tree, picked_tree};

use crate::splitting::parts;
use clause_form::{FormFault, norm};
use clause_proofs::number;
use derive_kit::{Part, all_e, all_i, and_e, and_i, cut_under, hyp};
use fof_terms::{Form, Term, copy_all};
use kernel::Proof;
use norm_proofs::{apply, norm_back};
use std::alloc::Global;
use tptp_base::{Boxed, List, Memory};

/// The closed line, by a proof of each part of its normal form.
pub fn line_of_parts(alloc: Global, line: &Form, proofs: List<Proof>) -> Result<Part, Memory>
    requires small { norm_size_of line.now ≤ 100000 }
    requires sorted { SortedSomewhere line.now }
    ensures { IfOk result (λ made. (t : Statements) (h : ListOf Formula) → Sorted t.vocabulary [] line.now
        → ShowEach t h proofs (parts_of (norm_of true line.now)) → Proves t [] h made line.now) }
{
    let norm = Boxed::new(alloc, small_norm(alloc, line)?)?;
    let whole = norm_of_parts(alloc, norm.get(), proofs)?;
    line_of_norm(alloc, line, whole)
}

/// The closed line, by a proof of its normal form.
pub(crate) fn line_of_norm(alloc: Global, line: &Form, whole: Part) -> Result<Part, Memory>
    requires small { norm_size_of line.now ≤ 100000 }
    requires sorted { SortedSomewhere line.now }
    ensures { IfOk result (λ made. (t : Statements) (h : ListOf Formula) → Sorted t.vocabulary [] line.now
        → Proves t [] h whole (norm_of true line.now) → Proves t [] h made line.now) }
{
    let back = norm_back(alloc, line)?;
    apply(alloc, back, whole)
}

/// The normal form of the formula, whose norm size is within the limit.
pub(crate) fn small_norm(alloc: Global, form: &Form) -> Result<Form, Memory>
    requires { norm_size_of form.now ≤ 100000 }
    ensures { IfOk result (λ made. made ≡ norm_of true form.now) }
{
    match norm(alloc, form) {
        Ok(made) => Ok(made),
        Err(FormFault::Memory) => Err(Memory),
        Err(FormFault::Wide) => unreachable!(),
    }
}

// The closed normal form, by a proof of each of its parts.
fn norm_of_parts(alloc: Global, norm: &Form, proofs: List<Proof>) -> Result<Part, Memory>
    requires { norm_size_of norm.now ≤ 100000 }
    ensures { IfOk result (λ made. (t : Statements) (h : ListOf Formula) → Sorted t.vocabulary [] norm.now
        → ShowEach t h proofs (parts_of norm.now) → Proves t [] h made norm.now) }
{
    let members = parts(alloc, norm)?;
    let gathered = gather(norm, alloc, 0, members.as_slice())?;
    let all = and_i(alloc, proofs)?;
    cut_under(alloc, all, Form::And(members), gathered.part)
}

// A formula by the conjunction of its parts, and how many they are.
#[derive(Drop)]
struct Gathered {
    part: Part,
    count: usize,
}

// The same of several formulas.
#[derive(Drop)]
struct AllGathered {
    proofs: List<Proof>,
    count: usize,
}

// The formula under so many quantifiers, by the conjunction of its parts, which begin the list. A hypothesis that is
// used under a quantifier is copied for each use, so each conjunction has no parts but those that are needed, and is
// used once as it comes under quantifiers.
#[cycle(gather)]
fn gather(form: &Form, alloc: Global, depth: u32, rest: &[Form]) -> Result<Gathered, Memory>
    requires { length (parts_of form.now) ≤ length rest.now }
    ensures { IfOk result (λ made. IsGathered form.now depth rest.now made.part made.count) }
{
    match form {
        Form::And(members) => {
            let made = gather_all(members.as_slice(), alloc, depth, rest)?;
            let count = made.count;
            let part = and_i(alloc, made.proofs)?;
            Ok(Gathered { part, count })
        }
        Form::All(sort, body) => {
            let body = body.get();
            let inner = after(depth)?;
            let made = gather(body, alloc, inner, rest)?;
            let count = made.count;
            let own = front(rest, count);
            let opened = brought_under(alloc, body, own, made.part)?;
            let part = all_i(alloc, *sort, opened)?;
            Ok(Gathered { part, count })
        }
        Form::Atom(_, _)
        | Form::Eq(_, _)
        | Form::Not(_)
        | Form::Or(_)
        | Form::Imp(_, _)
        | Form::Iff(_, _)
        | Form::Ex(_, _) => {
            let part = leaf(alloc, depth, 0)?;
            Ok(Gathered { part, count: 1 })
        }
    }
}

// The same of each of the formulas.
#[cycle(gather)]
fn gather_all(
    forms: &[Form],
    alloc: Global,
    depth: u32,
    rest: &[Form],
) -> Result<AllGathered, Memory>
    requires { length (flat_map parts_of forms.now) ≤ length rest.now }
    ensures { IfOk result (λ made. AreGathered forms.now depth rest.now made.proofs made.count) }
{
    let mut proofs = List::new(alloc);
    let mut first = 0;
    for form in forms {
        let left = behind(rest, first);
        let made = gather(form, alloc, depth, left)?;
        let count = made.count;
        let one = member(alloc, form, depth, rest, first, made)?;
        proofs.push(one.into_inner())?;
        first += count;
    }
    Ok(AllGathered {
        proofs,
        count: first,
    })
}

// The formulas from that number on.
fn behind(forms: &[Form], first: usize) -> &[Form]
    requires { first ≤ length forms.now }
    ensures { result.now ≡ drop first forms.now }
{
    &forms[first..]
}

// The first so many of the formulas.
fn front(forms: &[Form], count: usize) -> &[Form]
    requires { count ≤ length forms.now }
    ensures { result.now ≡ take count forms.now }
{
    &forms[..count]
}

// One of several formulas, by the conjunction of the parts of all, among which its own begin at that number.
fn member(
    alloc: Global,
    form: &Form,
    depth: u32,
    rest: &[Form],
    first: usize,
    made: Gathered,
) -> Result<Part, Memory>
    requires within { first + length (parts_of form.now) ≤ length rest.now }
    requires made { IsGathered form.now depth (drop first rest.now) made.part made.count }
    ensures { IfOk result (λ part. IsMember form.now depth rest.now first part) }
{
    if is_part(form) {
        return leaf(alloc, depth, number(first)?);
    }
    let own = &rest[first..first + made.count];
    narrowed(alloc, own, first, made.part)
}

// Whether the formula is its only part.
fn is_part(form: &Form) -> bool
    ensures { result ≡ true → parts_of form.now ≡ form.now ∷ [] }
{
    match form {
        Form::And(_) => false,
        Form::All(_, body) => is_part(body.get()),
        Form::Atom(_, _)
        | Form::Eq(_, _)
        | Form::Not(_)
        | Form::Or(_)
        | Form::Imp(_, _)
        | Form::Iff(_, _)
        | Form::Ex(_, _) => true,
    }
}

// What the part shows by the conjunction of some formulas, which begin at that number, by the conjunction of all.
fn narrowed(alloc: Global, own: &[Form], first: usize, part: Part) -> Result<Part, Memory>
    ensures { IfOk result (λ made. (t : Statements) (v : ListOf ℕ) (h : ListOf Formula) (a : Formula)
        → Proves t v h (picked_tree first (length own.now)) (And own.now) → Proves t v (And own.now ∷ h) part a
        → Proves t v h made a) }
{
    let all = picked(alloc, first, own.len())?;
    cut_under(alloc, all, Form::And(copy_all(alloc, own)?), part)
}

// The conjunction of so many members of hypothesis 0, the first of which has that number.
fn picked(alloc: Global, first: usize, count: usize) -> Result<Part, Memory>
    ensures { IfOk result (λ made. made ≡ picked_tree first count) }
{
    let mut proofs = List::new(alloc);
    for at in 0..count {
        let own = hyp(alloc, 0)?;
        let one = and_e(alloc, number_after(first, at)?, own)?;
        proofs.push(one.into_inner())?;
    }
    and_i(alloc, proofs)
}

// What the part shows by the conjunction of some formulas, with that brought under the last of the quantifiers.
fn brought_under(alloc: Global, body: &Form, own: &[Form], part: Part) -> Result<Part, Memory>
    ensures { IfOk result (λ made. (t : Statements) (v : ListOf ℕ) (h : ListOf Formula) (a : Formula)
        → Sorted t.vocabulary v (And own.now) → ((g : ListOf Formula) → Proves t v (And own.now ∷ g) part a)
        → Proves t v (And own.now ∷ h) made a) }
{
    if let Form::All(_, _) = body {
        return Ok(part);
    }
    let all = hyp(alloc, 0)?;
    cut_under(alloc, all, Form::And(copy_all(alloc, own)?), part)
}

// The next number. One after the 2^32nd, which no number names, is answered by want of memory.
fn after(number: u32) -> Result<u32, Memory>
    ensures { IfOk result (λ next. next ≡ number + 1) }
{
    match number.checked_add(1) {
        Some(next) => Ok(next),
        None => Err(Memory),
    }
}

// The number so far after the first. One after the 2^32nd, which no number names, is answered by want of memory.
fn number_after(first: usize, at: usize) -> Result<u32, Memory>
    ensures { IfOk result (λ found. found ≡ first + at) }
{
    match first.checked_add(at) {
        Some(place) => number(place),
        None => Err(Memory),
    }
}

// The part of that number, at so many variables, the outermost first.
fn leaf(alloc: Global, depth: u32, number: u32) -> Result<Part, Memory>
    ensures { IfOk result (λ made. made ≡ leaf_tree depth number) }
{
    let own = hyp(alloc, 0)?;
    let mut made = and_e(alloc, number, own)?;
    for i in 0..depth {
        let variable = depth - 1 - i;
        made = all_e(alloc, Term::Var(variable), made)?;
    }
    Ok(made)
}
