ghost use Rattle.std.specs.Prelude.{◌≡◌, ◌≤◌, ◌<◌, ◌+◌, ◌^◌, ◌∷◌, [], ℕ, Bool, IfOk, true, false, not, map, length};
ghost use Rattle.clause_form.specs.Norm.{node as node_of, signed as signed_of, norm_of, join as joined_of};
ghost use Rattle.clause_form.specs.Sizes.{norm_size_of};
ghost use Rattle.fof_terms.specs.declared.form.Form.{Form as Formula, Not, Imp, Iff, Or};
ghost use Rattle.fof_terms.specs.Sorts.{binder_depth};
ghost use Rattle.norm_proofs.specs.code.Steps.{Between};
ghost use Rattle.norm_proofs.specs.code.Connectives.{sides as sides_of, sides_back as sides_back_of};
ghost use Rattle.norm_proofs.specs.code.Connectives.{both_sides as both_sides_of};
ghost use Rattle.norm_proofs.specs.code.Links.{Arms, kind_of};

use crate::connectives::{both_sides, iff_sides, imp_sides, sides, sides_back, two};
use crate::joins::{flatten, join_step};
use crate::links::{Way, arm, link, toward};
use crate::steps::{
    Normed, Whole, between_denied, copy, denied, node, same, signed, then, twice_denied, unchanged,
};
use clause_form::{join_flat, norm_signed};
use derive_kit::Part;
use fof_terms::{Form, equal_all};
use kernel::Proof;
use std::alloc::Global;
use tptp_base::{Boxed, List, Memory};

// An atom, or under minus its negation, as its own normal form.
pub(crate) fn literal(alloc: Global, form: &Form, positive: bool) -> Result<Normed, Memory>
    ensures norm { IfOk result (λ made. made.norm ≡ signed_of positive form.now) }
    ensures part { IfOk result (λ made. (forth : Bool) (n : ℕ)
        → Between forth n made.part (signed_of positive form.now) (signed_of positive form.now)) }
{
    unchanged(alloc, signed(alloc, positive, copy(alloc, form)?)?)
}

// Between a negation and the normal form of the body, by the part for the body under the other sign.
pub(crate) fn not_step(
    alloc: Global,
    positive: bool,
    forth: bool,
    body: &Form,
    norm: &Form,
    part: Part,
) -> Result<Part, Memory>
    ensures { IfOk result (λ made. (n : ℕ) → Between forth n part (signed_of (not positive) body.now) norm.now
        → Between forth n made (signed_of positive (Not body.now)) norm.now) }
{
    if positive {
        return Ok(part);
    }
    let outer = twice_denied(alloc, forth, body)?;
    let twice = denied(alloc, denied(alloc, copy(alloc, body)?)?)?;
    then(alloc, forth, twice, copy(alloc, norm)?, outer, part)
}

// Between a formula and the normal form of another one's negation, by the part between the formula's negation and the
// other one, which goes the other way, and that between the other one's negation and its normal form.
pub(crate) fn denied_step(
    alloc: Global,
    forth: bool,
    form: &Form,
    other: &Form,
    part: Part,
    last: Part,
) -> Result<Part, Memory>
    requires { norm_size_of other.now ≤ 100000 }
    ensures { IfOk result (λ made. (n : ℕ) → Between (not forth) n part (Not form.now) other.now
        → Between forth n last (Not other.now) (norm_of false other.now)
        → Between forth n made form.now (norm_of false other.now)) }
{
    let first = denied(alloc, copy(alloc, form)?)?;
    let turned = between_denied(alloc, forth, first, copy(alloc, other)?, part)?;
    let norm = Boxed::new(alloc, norm_signed(alloc, other, false)?)?;
    let twice = denied(alloc, denied(alloc, copy(alloc, form)?)?)?;
    let inner = then(alloc, forth, twice, copy(alloc, norm.get())?, turned, last)?;
    let outer = twice_denied(alloc, !forth, form)?;
    then(alloc, forth, copy(alloc, form)?, norm, outer, inner)
}

// The normal form of a node, or under minus of its negation, with the proof between them, by the members' normal forms
// and parts.
pub(crate) fn node_step(
    alloc: Global,
    way: Way,
    forms: &[Form],
    norms: &[Form],
    parts: List<Proof>,
) -> Result<Normed, Memory>
    requires size { norm_size_of (node_of way.conjunction forms.now) ≤ 100000 }
    requires norms { norms.now ≡ map (norm_of way.positive) forms.now }
    ensures norm { IfOk result (λ made. made.norm ≡ norm_of way.positive (node_of way.conjunction forms.now)) }
    ensures part { IfOk result (λ made. (n : ℕ)
        → Arms way.conjunction way.positive way.forth n forms.now forms.now parts
        → Between way.forth n made.part (signed_of way.positive (node_of way.conjunction forms.now))
        (norm_of way.positive (node_of way.conjunction forms.now))) }
{
    let linked = linked(alloc, way, forms, norms, parts)?;
    let joined = join_step(alloc, way.kind(), way.forth, norms)?;
    let norm = joined_node(alloc, way.kind(), norms)?;
    let first = signed(alloc, way.positive, node(alloc, way.conjunction, forms)?)?;
    let last = copy(alloc, norm.get())?;
    let part = then(alloc, way.forth, first, last, linked, joined)?;
    Ok(Normed { norm, part })
}

// Between the node, or under minus its negation, and the node of the members' normal forms. Members that are their own
// normal forms are not taken apart.
fn linked(
    alloc: Global,
    way: Way,
    forms: &[Form],
    norms: &[Form],
    parts: List<Proof>,
) -> Result<Part, Memory>
    requires { norms.now ≡ map (norm_of way.positive) forms.now }
    ensures { IfOk result (λ made. (n : ℕ)
        → Arms way.conjunction way.positive way.forth n forms.now forms.now parts
        → Between way.forth n made (signed_of way.positive (node_of way.conjunction forms.now))
        (node_of (kind_of way.conjunction way.positive) norms.now)) }
{
    if way.positive {
        if equal_all(forms, norms) {
            return same(alloc, node(alloc, way.conjunction, forms)?);
        }
    }
    link(alloc, way, forms, norms, parts)
}

// The joined node.
fn joined_node(alloc: Global, kind: bool, members: &[Form]) -> Result<Whole, Memory>
    ensures { IfOk result (λ made. made ≡ joined_of kind members.now) }
{
    let flat = flatten(alloc, kind, members)?;
    Ok(Boxed::new(alloc, join_flat(alloc, kind, flat))?)
}

// The same for two members.
fn pair_step(
    alloc: Global,
    way: Way,
    forms: &[Form],
    first: Normed,
    second: Normed,
) -> Result<Normed, Memory>
    requires two { length forms.now ≡ 2 }
    requires size { norm_size_of (node_of way.conjunction forms.now) ≤ 100000 }
    requires norms { first.norm ∷ second.norm ∷ [] ≡ map (norm_of way.positive) forms.now }
    ensures norm { IfOk result (λ made. made.norm ≡ norm_of way.positive (node_of way.conjunction forms.now)) }
    ensures part { IfOk result (λ made. (n : ℕ) (a b : Formula) → forms.now ≡ a ∷ b ∷ []
        → Between way.forth n first.part (signed_of way.positive a) (norm_of way.positive a)
        → Between way.forth n second.part (signed_of way.positive b) (norm_of way.positive b)
        → Between way.forth n made.part (signed_of way.positive (node_of way.conjunction forms.now))
        (norm_of way.positive (node_of way.conjunction forms.now))) }
{
    let norms = two_forms(alloc, first.norm, second.norm)?;
    let one = arm(
        alloc,
        way,
        forms,
        norms.as_slice(),
        0,
        &forms[0],
        first.part,
    )?;
    let other = arm(
        alloc,
        way,
        forms,
        norms.as_slice(),
        1,
        &forms[1],
        second.part,
    )?;
    node_step(alloc, way, forms, norms.as_slice(), two(alloc, one, other)?)
}

// Two formulas in a list.
fn two_forms(alloc: Global, first: Whole, second: Whole) -> Result<List<Form>, Memory>
    ensures { IfOk result (λ made. made ≡ first ∷ second ∷ []) }
{
    let mut made = List::new(alloc);
    made.push(first.into_inner())?;
    made.push(second.into_inner())?;
    Ok(made)
}

// The normal form of the disjunction of the sides of an implication, with the proof between them, by those for the
// sides.
pub(crate) fn sides_step(
    alloc: Global,
    positive: bool,
    forth: bool,
    left: &Form,
    right: &Form,
    first: Normed,
    second: Normed,
) -> Result<Normed, Memory>
    requires size { norm_size_of (Imp left.now right.now) ≤ 100000 }
    requires first { first.norm ≡ norm_of (not positive) left.now }
    requires second { second.norm ≡ norm_of positive right.now }
    ensures norm { IfOk result (λ made. made.norm ≡ norm_of positive (Or (sides_of left.now right.now))) }
    ensures part { IfOk result (λ made. (n : ℕ)
        → Between forth n first.part (signed_of (not positive) left.now) (norm_of (not positive) left.now)
        → Between forth n second.part (signed_of positive right.now) (norm_of positive right.now)
        → Between forth n made.part (signed_of positive (Or (sides_of left.now right.now)))
        (norm_of positive (Or (sides_of left.now right.now)))) }
{
    let way = Way {
        conjunction: false,
        positive,
        forth,
    };
    let forms = sides(alloc, left, right)?;
    let Normed { norm, part } = first;
    let part = not_step(alloc, positive, forth, left, norm.get(), part)?;
    pair_step(alloc, way, forms.as_slice(), Normed { norm, part }, second)
}

// The same for the disjunction of the left side and the negated right one.
pub(crate) fn back_step(
    alloc: Global,
    positive: bool,
    forth: bool,
    left: &Form,
    right: &Form,
    first: Normed,
    second: Normed,
) -> Result<Normed, Memory>
    requires size { norm_size_of (Imp left.now right.now) ≤ 100000 }
    requires first { first.norm ≡ norm_of positive left.now }
    requires second { second.norm ≡ norm_of (not positive) right.now }
    ensures norm { IfOk result (λ made. made.norm ≡ norm_of positive (Or (sides_back_of left.now right.now))) }
    ensures part { IfOk result (λ made. (n : ℕ)
        → Between forth n first.part (signed_of positive left.now) (norm_of positive left.now)
        → Between forth n second.part (signed_of (not positive) right.now) (norm_of (not positive) right.now)
        → Between forth n made.part (signed_of positive (Or (sides_back_of left.now right.now)))
        (norm_of positive (Or (sides_back_of left.now right.now)))) }
{
    let way = Way {
        conjunction: false,
        positive,
        forth,
    };
    let forms = sides_back(alloc, left, right)?;
    let Normed { norm, part } = second;
    let part = not_step(alloc, positive, forth, right, norm.get(), part)?;
    pair_step(alloc, way, forms.as_slice(), first, Normed { norm, part })
}

// Between two formulas, or under minus their negations, by a part between them, or under minus the other way.
fn under_sign(
    alloc: Global,
    positive: bool,
    forth: bool,
    first: Whole,
    last: Whole,
    part: Part,
) -> Result<Part, Memory>
    ensures { IfOk result (λ made. (n : ℕ) → Between (kind_of positive forth) n part first last
        → Between forth n made (signed_of positive first) (signed_of positive last)) }
{
    if positive {
        return Ok(part);
    }
    between_denied(alloc, forth, first, last, part)
}

// The normal form of an implication, or under minus of its negation, with the proof between them, by those for the
// sides.
pub(crate) fn imp_step(
    alloc: Global,
    positive: bool,
    forth: bool,
    left: &Form,
    right: &Form,
    first: Normed,
    second: Normed,
) -> Result<Normed, Memory>
    requires size { norm_size_of (Imp left.now right.now) ≤ 100000 }
    requires first { first.norm ≡ norm_of (not positive) left.now }
    requires second { second.norm ≡ norm_of positive right.now }
    ensures norm { IfOk result (λ made. made.norm ≡ norm_of positive (Imp left.now right.now)) }
    ensures part { IfOk result (λ made. (n : ℕ)
        → Between forth n first.part (signed_of (not positive) left.now) (norm_of (not positive) left.now)
        → Between forth n second.part (signed_of positive right.now) (norm_of positive right.now)
        → Between forth n made.part (signed_of positive (Imp left.now right.now))
        (norm_of positive (Imp left.now right.now))) }
{
    let inner = sides_step(alloc, positive, forth, left, right, first, second)?;
    let turned = imp_sides(alloc, toward(positive, forth), left, right)?;
    let whole = Boxed::new(alloc, Form::Imp(copy(alloc, left)?, copy(alloc, right)?))?;
    let forms = sides(alloc, left, right)?;
    let other = node(alloc, false, forms.as_slice())?;
    by_other(alloc, positive, forth, whole, other, turned, inner)
}

// The normal form of an equivalence, or under minus of its negation, with the proof between them, by those for the
// disjunctions of its sides.
pub(crate) fn iff_step(
    alloc: Global,
    positive: bool,
    forth: bool,
    left: &Form,
    right: &Form,
    first: Normed,
    second: Normed,
) -> Result<Normed, Memory>
    requires size { norm_size_of (Iff left.now right.now) ≤ 100000 }
    requires first { first.norm ≡ norm_of positive (Or (sides_of left.now right.now)) }
    requires second { second.norm ≡ norm_of positive (Or (sides_back_of left.now right.now)) }
    ensures norm { IfOk result (λ made. made.norm ≡ norm_of positive (Iff left.now right.now)) }
    ensures part { IfOk result (λ made. (n : ℕ)
        → Between forth n first.part (signed_of positive (Or (sides_of left.now right.now)))
        (norm_of positive (Or (sides_of left.now right.now)))
        → Between forth n second.part (signed_of positive (Or (sides_back_of left.now right.now)))
        (norm_of positive (Or (sides_back_of left.now right.now)))
        → Between forth n made.part (signed_of positive (Iff left.now right.now))
        (norm_of positive (Iff left.now right.now))) }
{
    let way = Way {
        conjunction: true,
        positive,
        forth,
    };
    let forms = both_sides(alloc, left, right)?;
    let inner = pair_step(alloc, way, forms.as_slice(), first, second)?;
    let turned = iff_sides(alloc, toward(positive, forth), left, right)?;
    let whole = Boxed::new(alloc, Form::Iff(copy(alloc, left)?, copy(alloc, right)?))?;
    let other = node(alloc, true, forms.as_slice())?;
    by_other(alloc, positive, forth, whole, other, turned, inner)
}

// The normal form of a formula, with the proof between them, by a part between it and another formula of the same
// normal form.
fn by_other(
    alloc: Global,
    positive: bool,
    forth: bool,
    whole: Whole,
    other: Whole,
    turned: Part,
    inner: Normed,
) -> Result<Normed, Memory>
    requires { inner.norm ≡ norm_of positive other }
    ensures norm { IfOk result (λ made. made.norm ≡ inner.norm) }
    ensures part { IfOk result (λ made. (n : ℕ) → norm_of positive other ≡ norm_of positive whole
        → Between (kind_of positive forth) n turned whole other
        → Between forth n inner.part (signed_of positive other) (norm_of positive other)
        → Between forth n made.part (signed_of positive whole) (norm_of positive whole)) }
{
    let Normed { norm, part } = inner;
    let first = signed(alloc, positive, copy(alloc, whole.get())?)?;
    let before = under_sign(alloc, positive, forth, whole, other, turned)?;
    let last = copy(alloc, norm.get())?;
    let part = then(alloc, forth, first, last, before, part)?;
    Ok(Normed { norm, part })
}
