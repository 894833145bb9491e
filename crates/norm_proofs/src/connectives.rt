ghost use Rattle.std.specs.Prelude.{◌≡◌, ◌∷◌, [], true, IfOk};
ghost use Rattle.kernel.specs.declared.proof.Proof.{Raa, NotE, Hyp, OrI, OrE, IffI};
ghost use Rattle.norm_proofs.specs.code.Connectives.{sides as sides_of, sides_back as sides_back_of};
ghost use Rattle.norm_proofs.specs.code.Connectives.{both_sides as both_sides_of, contrary as contrary_tree};
ghost use Rattle.norm_proofs.specs.code.Connectives.{side_at as side_tree, imp_tree, iff_tree};

use crate::steps::{copy, node, under};
use derive_kit::{
    Part, and_e, and_i, hyp, iff_i, iff_l, iff_r, imp_e, imp_i, not_e, or_e, or_i, raa,
};
use fof_terms::{Form, copy_all};
use kernel::Proof;
use std::alloc::Global;
use tptp_base::{Boxed, List, Memory};

// The negation of the left side, and the right side.
pub(crate) fn sides(alloc: Global, left: &Form, right: &Form) -> Result<List<Form>, Memory>
    ensures { IfOk result (λ made. made ≡ sides_of left.now right.now) }
{
    let mut made = List::new(alloc);
    made.push(Form::Not(copy(alloc, left)?))?;
    made.push(right.copy(alloc)?)?;
    Ok(made)
}

// The left side, and the negation of the right side.
pub(crate) fn sides_back(alloc: Global, left: &Form, right: &Form) -> Result<List<Form>, Memory>
    ensures { IfOk result (λ made. made ≡ sides_back_of left.now right.now) }
{
    let mut made = List::new(alloc);
    made.push(left.copy(alloc)?)?;
    made.push(Form::Not(copy(alloc, right)?))?;
    Ok(made)
}

// The disjunctions of both.
pub(crate) fn both_sides(alloc: Global, left: &Form, right: &Form) -> Result<List<Form>, Memory>
    ensures { IfOk result (λ made. made ≡ both_sides_of left.now right.now) }
{
    let mut made = List::new(alloc);
    made.push(Form::Or(sides(alloc, left, right)?))?;
    made.push(Form::Or(sides_back(alloc, left, right)?))?;
    Ok(made)
}

// From falsehood of the hypothesis number 1, once the formula is denied, to the formula.
fn contrary(alloc: Global, form: &Form) -> Result<Part, Memory>
    ensures { IfOk result (λ made. made ≡ contrary_tree form.now) }
{
    let clash = not_e(alloc, hyp(alloc, 1)?, hyp(alloc, 2)?)?;
    raa(alloc, form.copy(alloc)?, clash)
}

// The disjunction of the members, by the one that the part shows where it is denied.
fn side_at(alloc: Global, members: &[Form], number: u32, part: Part) -> Result<Part, Memory>
    ensures { IfOk result (λ made. made ≡ side_tree members.now number part) }
{
    let one = or_i(alloc, copy_all(alloc, members)?, number, part)?;
    let clash = not_e(alloc, hyp(alloc, 0)?, one)?;
    raa(alloc, node(alloc, false, members)?.into_inner(), clash)
}

// A side of the disjunction that is denied, since its negation is the member of that number.
fn other_side(alloc: Global, side: &Form, members: &[Form], number: u32) -> Result<Part, Memory>
    ensures { IfOk result (λ made. made ≡ Raa side.now (NotE (Hyp 1) (OrI members.now number (Hyp 0)))) }
{
    let one = or_i(alloc, copy_all(alloc, members)?, number, hyp(alloc, 0)?)?;
    let clash = not_e(alloc, hyp(alloc, 1)?, one)?;
    raa(alloc, side.copy(alloc)?, clash)
}

// From the implication to the disjunction of its sides, or back.
pub(crate) fn imp_sides(
    alloc: Global,
    forth: bool,
    left: &Form,
    right: &Form,
) -> Result<Part, Memory>
    ensures { IfOk result (λ made. made ≡ imp_tree forth left.now right.now) }
{
    let members = sides(alloc, left, right)?;
    if forth {
        let own = other_side(alloc, left, members.as_slice(), 0)?;
        let one = imp_e(alloc, hyp(alloc, 1)?, own)?;
        let whole = side_at(alloc, members.as_slice(), 1, one)?;
        let first = Form::Imp(copy(alloc, left)?, copy(alloc, right)?);
        return imp_i(alloc, first, whole);
    }
    let last = by_right(alloc, right, hyp(alloc, 1)?)?;
    let whole = imp_i(alloc, left.copy(alloc)?, last)?;
    under(alloc, node(alloc, false, members.as_slice())?, whole)
}

// The right side, by the left one and the disjunction.
fn by_right(alloc: Global, right: &Form, part: Part) -> Result<Part, Memory>
    ensures { IfOk result (λ made. made ≡ OrE right.now part (contrary_tree right.now ∷ Hyp 0 ∷ [])) }
{
    let arms = two(alloc, contrary(alloc, right)?, hyp(alloc, 0)?)?;
    or_e(alloc, right.copy(alloc)?, part, arms)
}

// The left side, by the right one and the other disjunction.
fn by_left(alloc: Global, left: &Form, part: Part) -> Result<Part, Memory>
    ensures { IfOk result (λ made. made ≡ OrE left.now part (Hyp 0 ∷ contrary_tree left.now ∷ [])) }
{
    let arms = two(alloc, hyp(alloc, 0)?, contrary(alloc, left)?)?;
    or_e(alloc, left.copy(alloc)?, part, arms)
}

// Two proofs in a list.
pub(crate) fn two(alloc: Global, first: Part, second: Part) -> Result<List<Proof>, Memory>
    ensures { IfOk result (λ made. made ≡ first ∷ second ∷ []) }
{
    let mut made = List::new(alloc);
    made.push(first.into_inner())?;
    made.push(second.into_inner())?;
    Ok(made)
}

// From the equivalence to the disjunctions of its sides, or back.
pub(crate) fn iff_sides(
    alloc: Global,
    forth: bool,
    left: &Form,
    right: &Form,
) -> Result<Part, Memory>
    ensures { IfOk result (λ made. made ≡ iff_tree forth left.now right.now) }
{
    if forth {
        return iff_forth(alloc, left, right);
    }
    let first = by_right(alloc, right, and_e(alloc, 0, hyp(alloc, 1)?)?)?;
    let second = by_left(alloc, left, and_e(alloc, 1, hyp(alloc, 1)?)?)?;
    let whole = iff_whole(alloc, left, right, first, second)?;
    let members = both_sides(alloc, left, right)?;
    under(alloc, node(alloc, true, members.as_slice())?, whole)
}

// The equivalence, by each side under the other.
fn iff_whole(
    alloc: Global,
    left: &Form,
    right: &Form,
    first: Part,
    second: Part,
) -> Result<Part, Memory>
    ensures { IfOk result (λ made. made ≡ IffI left.now right.now first second) }
{
    let right = copy(alloc, right)?;
    iff_i(alloc, left.copy(alloc)?, right.into_inner(), first, second)
}

// From the equivalence to the disjunctions of its sides.
fn iff_forth(alloc: Global, left: &Form, right: &Form) -> Result<Part, Memory>
    ensures { IfOk result (λ made. made ≡ iff_tree true left.now right.now) }
{
    let members = sides(alloc, left, right)?;
    let own = other_side(alloc, left, members.as_slice(), 0)?;
    let one = iff_l(alloc, hyp(alloc, 1)?, own)?;
    let first = side_at(alloc, members.as_slice(), 1, one)?;
    let members = sides_back(alloc, left, right)?;
    let own = other_side(alloc, right, members.as_slice(), 1)?;
    let one = iff_r(alloc, hyp(alloc, 1)?, own)?;
    let second = side_at(alloc, members.as_slice(), 0, one)?;
    let whole = and_i(alloc, two(alloc, first, second)?)?;
    let form = Form::Iff(copy(alloc, left)?, copy(alloc, right)?);
    imp_i(alloc, form, whole)
}
