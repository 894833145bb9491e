ghost use Rattle.std.specs.Prelude.{◌≡◌, ◌≤◌, ◌-◌, ◌<◌, ◌+◌, ℕ, List, IfOk, Some, true, length, map};
ghost use Rattle.fof_terms.specs.declared.form.Form.{Form as Formula, Imp, Or};
ghost use Rattle.fof_terms.specs.Sorts.{Sorted};
ghost use Rattle.clause_form.specs.declared.clause.Clause.{Clause as Found};
ghost use Rattle.clause_form.specs.declared.path.Path.{Each};
ghost use Rattle.clause_form.specs.ClauseView.{closed, form_of_lit};
ghost use Rattle.clause_form.specs.Found.{IsRoomy, AreFound};
ghost use Rattle.clause_form.specs.Paths.{all_beside as beside_of, reached};
ghost use Rattle.clause_form.specs.Reached.{Suits};
ghost use Rattle.clause_form.specs.Sizes.{norm_size_of};
ghost use Rattle.kernel.specs.Proves.{Proves};
ghost use Rattle.kernel.specs.Statements.{Statements};
ghost use Rattle.norm_proofs.specs.code.Fitting.{Fits};
ghost use Rattle.norm_proofs.specs.code.Links.{PartsFrom};
ghost use Rattle.norm_proofs.specs.Placed.{SortedSomewhere};
ghost use Rattle.norm_proofs.specs.code.Steps.{Between};
ghost use Rattle.norm_proofs.specs.code.Alongside.{ArmAt, pick_tree, under_tree};
ghost use Rattle.norm_proofs.specs.code.Routes.{IsAlong};

use crate::applying::{applied, is_itself};
use crate::steps::{copy, node, same, under};
use crate::widening::widen;
use clause_form::{Clause, Path, all_beside, clauses_of_paths, close, forms_of_lits};
use derive_kit::{Part, all_e, all_i, and_e, hyp, imp_e, or_e};
use fof_terms::{Form, SortId, Term, equal_all};
use kernel::Proof;
use std::alloc::Global;
use tptp_base::{Boxed, List as Items, Memory};

/// Imp from the formula to the closed clause that the path reaches in it.
pub fn path_proof(alloc: Global, norm: &Form, path: &Path) -> Result<Part, Memory>
    requires size { norm_size_of norm.now ≤ 100000 }
    requires sorted { SortedSomewhere norm.now }
    requires fits { (c : Found) × (reached path.now norm.now ≡ Some c) }
    ensures { IfOk result (λ proof. (t : Statements) (v : List ℕ) (h : List Formula) (c : Found) → length v ≤ 1000000000
        → Sorted t.vocabulary v norm.now
        → reached path.now norm.now ≡ Some c → Proves t v h proof (Imp norm.now (closed c))) }
{
    along(alloc, norm, path)
}

// The same, where the path fits the formula.
#[cycle(along)]
fn along(alloc: Global, form: &Form, path: &Path) -> Result<Part, Memory>
    requires size { norm_size_of form.now ≤ 100000 }
    requires room { IsRoomy form.now }
    requires fits { Fits path.now form.now }
    ensures { IfOk result (λ made. IsAlong path.now form.now made) }
{
    match path {
        Path::Leaf => same(alloc, copy(alloc, form)?),
        Path::Pick(number, rest) => match form {
            Form::And(members) => {
                let place = *number as usize;
                let members = members.as_slice();
                let part = along(alloc, &members[place], rest.get())?;
                pick(alloc, members, *number, part)
            }
            _ => unreachable!(),
        },
        Path::Each(ways) => match form {
            Form::Or(members) => each(alloc, members.as_slice(), ways.as_slice()),
            _ => unreachable!(),
        },
        Path::Under(rest) => match form {
            Form::All(sort, body) => {
                let part = along(alloc, body.get(), rest.get())?;
                below(alloc, *sort, body.get(), part)
            }
            _ => unreachable!(),
        },
    }
}

// The same for the disjunction of the formulas, with a path for each.
#[cycle(along)]
fn each(alloc: Global, forms: &[Form], paths: &[Path]) -> Result<Part, Memory>
    requires size { norm_size_of (Or forms.now) ≤ 100000 }
    requires room { IsRoomy (Or forms.now) }
    requires fits { Fits (Each paths.now) (Or forms.now) }
    ensures { IfOk result (λ made. IsAlong (Each paths.now) (Or forms.now) made) }
{
    let Some(clauses) = clauses_of_paths(alloc, forms, paths)? else {
        unreachable!()
    };
    let whole = all_beside(alloc, clauses.as_slice())?;
    if is_closed(alloc, &whole, forms)? {
        return same(alloc, node(alloc, false, forms)?);
    }
    let arms = arms(alloc, forms, paths, clauses.as_slice(), &whole)?;
    gathered(alloc, forms, &whole, arms)
}

// The closed clause of all under each of the formulas.
#[cycle(along)]
fn arms(
    alloc: Global,
    forms: &[Form],
    paths: &[Path],
    clauses: &[Clause],
    whole: &Clause,
) -> Result<Items<Proof>, Memory>
    requires size { norm_size_of (Or forms.now) ≤ 100000 }
    requires room { IsRoomy (Or forms.now) }
    requires found { AreFound paths.now forms.now (Some clauses.now) }
    requires whole { whole.now ≡ beside_of clauses.now }
    ensures { IfOk result (λ made. PartsFrom (ArmAt whole.now forms.now) 0 forms.now made) }
{
    let members = forms_of_lits(alloc, whole.lits.as_slice())?;
    let mut made = Items::new(alloc);
    let mut before: usize = 0;
    let mut start: usize = 0;
    for number in 0..forms.len() {
        let part = along(alloc, &forms[number], &paths[number])?;
        let clause = &clauses[number];
        let after = whole.sorts.len() - before - clause.sorts.len();
        let arm = widen(alloc, whole, clause, members.as_slice(), after, start, part)?;
        made.push(arm.into_inner())?;
        before += clause.sorts.len();
        start += clause.lits.len();
    }
    Ok(made)
}

// Whether the disjunction of the formulas is the closed clause itself.
fn is_closed(alloc: Global, clause: &Clause, forms: &[Form]) -> Result<bool, Memory>
    ensures { IfOk result (λ found. found ≡ true → closed clause.now ≡ Or forms.now) }
{
    let form = Boxed::new(alloc, close(alloc, clause)?)?;
    match form.get() {
        Form::Or(members) => Ok(equal_all(members.as_slice(), forms)),
        _ => Ok(false),
    }
}

// By a member of the conjunction.
fn pick(alloc: Global, members: &[Form], number: u32, part: Part) -> Result<Part, Memory>
    ensures { IfOk result (λ made. made ≡ pick_tree members.now number part) }
{
    let own = and_e(alloc, number, hyp(alloc, 0)?)?;
    let last = applied(alloc, part, own)?;
    under(alloc, node(alloc, true, members)?, last)
}

// Under a universal quantifier.
fn below(alloc: Global, sort: SortId, body: &Form, part: Part) -> Result<Part, Memory>
    ensures { IfOk result (λ made. made ≡ under_tree sort body.now part) }
{
    let whole = Boxed::new(alloc, Form::All(sort, copy(alloc, body)?))?;
    if is_itself(part.get()) {
        return same(alloc, whole);
    }
    let own = all_e(alloc, Term::Var(0), hyp(alloc, 0)?)?;
    let last = all_i(alloc, sort, imp_e(alloc, part, own)?)?;
    under(alloc, whole, last)
}

// By the cases of the disjunction.
fn gathered(
    alloc: Global,
    forms: &[Form],
    whole: &Clause,
    arms: Items<Proof>,
) -> Result<Part, Memory>
    ensures { IfOk result (λ made. Suits (Or forms.now) whole.now
        → PartsFrom (ArmAt whole.now forms.now) 0 forms.now arms
        → Between true (length whole.now.sorts) made (Or forms.now) (closed whole.now)) }
{
    let own = hyp(alloc, 0)?;
    let last = or_e(alloc, close(alloc, whole)?, own, arms)?;
    under(alloc, node(alloc, false, forms)?, last)
}
