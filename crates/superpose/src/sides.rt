ghost use Rattle.std.specs.Prelude.{◌≡◌, false, true};
ghost use Rattle.superpose.specs.code.Pairs.{HasDeniedSides, HasSides};
ghost use Rattle.superpose.specs.code.Places.{IsUsable, NeverUsed};
ghost use Rattle.superpose.specs.code.Uses.{IsUsedAs};

use clause_form::{AtomOf, Lit};
use clause_order::is_greater;
use fof_terms::Term;

/// The sides of an equation, as it is read.
#[derive(Clone, Copy)]
pub struct Sides<'a> {
    pub left: &'a Term,
    pub right: &'a Term,
}

/// The sides of a positive equation, read from left to right, or from right to left where flipped. None where the
/// literal is none.
pub fn sides_of(lit: &Lit, flipped: bool) -> Option<Sides<'_>>
    ensures { HasSides lit.now flipped result }
{
    if !lit.positive {
        return None;
    }
    match &lit.atom {
        AtomOf::Eq(left, right) => {
            if flipped {
                Some(Sides {
                    left: right,
                    right: left,
                })
            } else {
                Some(Sides { left, right })
            }
        }
        AtomOf::Pred(_, _) | AtomOf::True | AtomOf::False => None,
    }
}

/// The sides of a denied equation. None where the literal is none.
pub fn denied_sides(lit: &Lit) -> Option<Sides<'_>>
    ensures { HasDeniedSides lit.now result }
{
    if lit.positive {
        return None;
    }
    match &lit.atom {
        AtomOf::Eq(left, right) => Some(Sides { left, right }),
        AtomOf::Pred(_, _) | AtomOf::True | AtomOf::False => None,
    }
}

/// Whether the literal, read so, is an equation whose side isn't less than the other one.
pub fn is_usable(lit: &Lit, flipped: bool) -> bool
    ensures never { result ≡ false → NeverUsed lit.now flipped }
    ensures usable { result ≡ true → IsUsable lit.now flipped }
    ensures used { result ≡ true → IsUsedAs lit.now flipped }
{
    match sides_of(lit, flipped) {
        Some(sides) => !is_greater(sides.right, sides.left),
        None => false,
    }
}
