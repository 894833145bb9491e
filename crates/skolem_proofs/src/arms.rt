// The proofs of nodes, by what is shown of their members.
ghost use Rattle.std.specs.Prelude.{◌≡◌, ◌≤◌, ◌<◌, ◌^◌, IfOk, length};
ghost use Rattle.fof_terms.specs.declared.form.Form.{And, Or, All};
ghost use Rattle.fof_terms.specs.declared.term.Term.{Var};
ghost use Rattle.kernel.specs.declared.proof.Proof.{Hyp, AndI, OrE, ImpI, ImpE, AllI, AllE};
ghost use Rattle.skolem_proofs.specs.code.Witnessed.{arm as arm_of, cases as cases_of};

use derive_kit::{Part, all_e, all_i, and_e, and_i, hyp, imp_e, imp_i, or_e, or_i};
use fof_terms::{Form, SortId, Term, copy_all};
use kernel::Proof;
use std::alloc::Global;
use tptp_base::{Boxed, List, Memory};

// What the member of that number becomes, by the part, which shows that the member implies it: by the conjunction, or
// in a case of the disjunction.
pub(crate) fn arm(alloc: Global, conjunction: bool, number: u32, part: Part) -> Result<Part, Memory>
    ensures { IfOk result (λ made. made ≡ arm_of conjunction number part) }
{
    let own = hyp(alloc, 0)?;
    if conjunction {
        return imp_e(alloc, part, and_e(alloc, number, own)?);
    }
    imp_e(alloc, part, own)
}

// The disjunction of the formulas in each of the cases, by the formula that its part shows.
pub(crate) fn cases(
    alloc: Global,
    forms: &[Form],
    parts: List<Proof>,
) -> Result<List<Proof>, Memory>
    requires few { length forms.now < 2 ^ 32 }
    requires each { length parts ≡ length forms.now }
    ensures { IfOk result (λ made. made ≡ cases_of forms.now 0 parts) }
{
    let mut left = parts;
    let mut made = List::new(alloc);
    for number in 0..forms.len() {
        let part = Boxed::new(alloc, left.remove(0))?;
        let case = or_i(alloc, copy_all(alloc, forms)?, number as u32, part)?;
        made.push(case.into_inner())?;
    }
    Ok(made)
}

// The conjunction of what the arms show, by a conjunction.
pub(crate) fn conjunction(
    alloc: Global,
    members: &[Form],
    arms: List<Proof>,
) -> Result<Part, Memory>
    ensures { IfOk result (λ made. made ≡ ImpI (And members.now) (AndI arms)) }
{
    let whole = and_i(alloc, arms)?;
    imp_i(alloc, Form::And(copy_all(alloc, members)?), whole)
}

// The disjunction of the formulas, by the cases of a disjunction.
pub(crate) fn disjunction(
    alloc: Global,
    members: &[Form],
    forms: &[Form],
    arms: List<Proof>,
) -> Result<Part, Memory>
    requires few { length forms.now < 2 ^ 32 }
    requires each { length arms ≡ length forms.now }
    ensures { IfOk result (λ made. made
        ≡ ImpI (Or members.now) (OrE (Or forms.now) (Hyp 0) (cases_of forms.now 0 arms))) }
{
    let cases = cases(alloc, forms, arms)?;
    let goal = Form::Or(copy_all(alloc, forms)?);
    let whole = or_e(alloc, goal, hyp(alloc, 0)?, cases)?;
    imp_i(alloc, Form::Or(copy_all(alloc, members)?), whole)
}

// For all of the sort what the part shows that the body implies.
pub(crate) fn for_each(alloc: Global, sort: SortId, body: &Form, part: Part) -> Result<Part, Memory>
    ensures { IfOk result (λ made. made ≡ ImpI (All sort body.now) (AllI sort (ImpE part (AllE (Var 0) (Hyp 0))))) }
{
    let own = all_e(alloc, Term::Var(0), hyp(alloc, 0)?)?;
    let whole = all_i(alloc, sort, imp_e(alloc, part, own)?)?;
    let left = Form::All(sort, Boxed::new(alloc, body.copy(alloc)?)?);
    imp_i(alloc, left, whole)
}
