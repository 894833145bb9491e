ghost use Rattle.std.specs.Prelude.{◌↔◌, IsTrue};
ghost use Rattle.clause_order.specs.Order.{Exceeds};
ghost use Rattle.clause_order.specs.Weights.{as_term};
ghost use Rattle.clause_order.specs.code.Inside.{IsGreaterInside};

use crate::comparison::{exceed_at_first, is_greater};
use crate::counting::atom_has_variables_of;
use crate::weighing::lit_weight_of;
use clause_form::{AtomOf, Lit};
use fof_terms::equal_term;

/// Whether the atom of the first literal is the greater term.
pub fn exceeds(left: &Lit, right: &Lit) -> bool
    ensures { IsTrue result ↔ Exceeds left.now right.now }
{
    let left_weight = lit_weight_of(left);
    let right_weight = lit_weight_of(right);
    if right_weight < left_weight {
        return atom_has_variables_of(&left.atom, &right.atom);
    }
    if left_weight < right_weight {
        return false;
    }
    if !atom_is_greater_inside(&left.atom, &right.atom) {
        return false;
    }
    atom_has_variables_of(&left.atom, &right.atom)
}

/// Whether the first atom has the greater head, or the same head and greater arguments.
fn atom_is_greater_inside(left: &AtomOf, right: &AtomOf) -> bool
    ensures { IsTrue result ↔ IsGreaterInside (as_term left.now) (as_term right.now) }
{
    match left {
        AtomOf::Pred(head, args) => match right {
            AtomOf::Pred(other, others) => {
                if *other == *head {
                    return exceed_at_first(args.as_slice(), others.as_slice());
                }
                *other < *head
            }
            AtomOf::Eq(_, _) => true,
            AtomOf::True => true,
            AtomOf::False => true,
        },
        AtomOf::Eq(first, second) => match right {
            AtomOf::Pred(_, _) => false,
            AtomOf::Eq(third, fourth) => {
                if equal_term(first, third) {
                    return is_greater(second, fourth);
                }
                is_greater(first, third)
            }
            AtomOf::True => true,
            AtomOf::False => true,
        },
        AtomOf::True => match right {
            AtomOf::Pred(_, _) => false,
            AtomOf::Eq(_, _) => false,
            AtomOf::True => false,
            AtomOf::False => true,
        },
        AtomOf::False => false,
    }
}
