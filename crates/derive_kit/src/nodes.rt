ghost use Rattle.std.specs.Prelude.{◌≡◌, IfOk};
ghost use Rattle.kernel.specs.declared.proof.Proof.{Hyp, AndI, AndE, OrI, OrE, ImpI, ImpE, NotI, NotE, Raa, IffI, IffL};
ghost use Rattle.kernel.specs.declared.proof.Proof.{IffR, AllI, AllE, ExI, ExE, Subst, Inhabit};

use fof_terms::{Form, SortId, Term};
use kernel::Proof;
use std::alloc::Global;
use tptp_base::{Boxed, List, Memory};

/// A proof in memory of its own.
pub type Part = Boxed<Proof>;

/// A hypothesis.
pub fn hyp(alloc: Global, number: u32) -> Result<Part, Memory>
    ensures { IfOk result (λ node. node ≡ Hyp number) }
{
    Ok(Boxed::new(alloc, Proof::Hyp(number))?)
}

/// The conjunction of what the parts show.
pub fn and_i(alloc: Global, parts: List<Proof>) -> Result<Part, Memory>
    ensures { IfOk result (λ node. node ≡ AndI parts) }
{
    Ok(Boxed::new(alloc, Proof::AndI(parts))?)
}

/// A member of the conjunction that the part shows.
pub fn and_e(alloc: Global, number: u32, part: Part) -> Result<Part, Memory>
    ensures { IfOk result (λ node. node ≡ AndE number part) }
{
    Ok(Boxed::new(alloc, Proof::AndE(number, part))?)
}

/// The disjunction of the members, by the one that the part shows.
pub fn or_i(alloc: Global, members: List<Form>, number: u32, part: Part) -> Result<Part, Memory>
    ensures { IfOk result (λ node. node ≡ OrI members number part) }
{
    Ok(Boxed::new(alloc, Proof::OrI(members, number, part))?)
}

/// The goal, by the disjunction that the part shows and an arm for each member.
pub fn or_e(alloc: Global, goal: Form, part: Part, arms: List<Proof>) -> Result<Part, Memory>
    ensures { IfOk result (λ node. node ≡ OrE goal part arms) }
{
    let goal = Boxed::new(alloc, goal)?;
    Ok(Boxed::new(alloc, Proof::OrE(goal, part, arms))?)
}

/// The implication from the formula to what the part shows under it.
pub fn imp_i(alloc: Global, left: Form, part: Part) -> Result<Part, Memory>
    ensures { IfOk result (λ node. node ≡ ImpI left part) }
{
    let left = Boxed::new(alloc, left)?;
    Ok(Boxed::new(alloc, Proof::ImpI(left, part))?)
}

/// The right side of the implication, by its left side.
pub fn imp_e(alloc: Global, implication: Part, left: Part) -> Result<Part, Memory>
    ensures { IfOk result (λ node. node ≡ ImpE implication left) }
{
    Ok(Boxed::new(alloc, Proof::ImpE(implication, left))?)
}

/// The negation of the formula, by falsehood under it.
pub fn not_i(alloc: Global, denied: Form, part: Part) -> Result<Part, Memory>
    ensures { IfOk result (λ node. node ≡ NotI denied part) }
{
    let denied = Boxed::new(alloc, denied)?;
    Ok(Boxed::new(alloc, Proof::NotI(denied, part))?)
}

/// Falsehood, by a negation and what it denies.
pub fn not_e(alloc: Global, negation: Part, part: Part) -> Result<Part, Memory>
    ensures { IfOk result (λ node. node ≡ NotE negation part) }
{
    Ok(Boxed::new(alloc, Proof::NotE(negation, part))?)
}

/// The goal, by falsehood under its negation.
pub fn raa(alloc: Global, goal: Form, part: Part) -> Result<Part, Memory>
    ensures { IfOk result (λ node. node ≡ Raa goal part) }
{
    let goal = Boxed::new(alloc, goal)?;
    Ok(Boxed::new(alloc, Proof::Raa(goal, part))?)
}

/// For all of the sort what the part shows.
pub fn all_i(alloc: Global, sort: SortId, part: Part) -> Result<Part, Memory>
    ensures { IfOk result (λ node. node ≡ AllI sort part) }
{
    Ok(Boxed::new(alloc, Proof::AllI(sort, part))?)
}

/// The instance at the term of what the part shows.
pub fn all_e(alloc: Global, term: Term, part: Part) -> Result<Part, Memory>
    ensures { IfOk result (λ node. node ≡ AllE term part) }
{
    let term = Boxed::new(alloc, term)?;
    Ok(Boxed::new(alloc, Proof::AllE(term, part))?)
}

/// That there is one, by the instance at the term.
pub fn ex_i(alloc: Global, sort: SortId, body: Form, term: Term, part: Part) -> Result<Part, Memory>
    ensures { IfOk result (λ node. node ≡ ExI sort body term part) }
{
    let body = Boxed::new(alloc, body)?;
    let term = Boxed::new(alloc, term)?;
    Ok(Boxed::new(alloc, Proof::ExI(sort, body, term, part))?)
}

/// The goal, by the one that there is.
pub fn ex_e(alloc: Global, goal: Form, part: Part, rest: Part) -> Result<Part, Memory>
    ensures { IfOk result (λ node. node ≡ ExE goal part rest) }
{
    let goal = Boxed::new(alloc, goal)?;
    Ok(Boxed::new(alloc, Proof::ExE(goal, part, rest))?)
}

/// The goal, by itself over a variable more.
pub fn inhabit(alloc: Global, sort: SortId, goal: Form, part: Part) -> Result<Part, Memory>
    ensures { IfOk result (λ node. node ≡ Inhabit sort goal part) }
{
    let goal = Boxed::new(alloc, goal)?;
    Ok(Boxed::new(alloc, Proof::Inhabit(sort, goal, part))?)
}

/// The equivalence of two formulas, each shown under the other.
pub fn iff_i(
    alloc: Global,
    left: Form,
    right: Form,
    forth: Part,
    back: Part,
) -> Result<Part, Memory>
    ensures { IfOk result (λ node. node ≡ IffI left right forth back) }
{
    let left = Boxed::new(alloc, left)?;
    let right = Boxed::new(alloc, right)?;
    Ok(Boxed::new(alloc, Proof::IffI(left, right, forth, back))?)
}

/// The right side of the equivalence, by its left side.
pub fn iff_l(alloc: Global, equivalence: Part, left: Part) -> Result<Part, Memory>
    ensures { IfOk result (λ node. node ≡ IffL equivalence left) }
{
    Ok(Boxed::new(alloc, Proof::IffL(equivalence, left))?)
}

/// The left side of the equivalence, by its right side.
pub fn iff_r(alloc: Global, equivalence: Part, right: Part) -> Result<Part, Memory>
    ensures { IfOk result (λ node. node ≡ IffR equivalence right) }
{
    Ok(Boxed::new(alloc, Proof::IffR(equivalence, right))?)
}

/// The body at the right side of the equation, by the body at its left side.
pub fn subst(
    alloc: Global,
    sort: SortId,
    body: Form,
    equation: Part,
    fact: Part,
) -> Result<Part, Memory>
    ensures { IfOk result (λ node. node ≡ Subst sort body equation fact) }
{
    let body = Boxed::new(alloc, body)?;
    Ok(Boxed::new(alloc, Proof::Subst(sort, body, equation, fact))?)
}
