ghost use Rattle.std.specs.Prelude.{◌≡◌, ◌↔◌, IsTrue};
ghost use Rattle.clause_order.specs.Comparison.{IsComparison};
ghost use Rattle.clause_order.specs.Eligible.{IsNotLess};
ghost use Rattle.clause_order.specs.Order.{IsGreater};
ghost use Rattle.clause_order.specs.code.Inside.{ExceedAtFirst, IsGreaterInside};

use crate::counting::has_variables_of;
use fof_terms::{Term, equal_term, weight};

/// How two terms compare in the Knuth-Bendix order.
#[derive(Clone, Copy, Debug, PartialEq, Eq)]
pub enum Compare {
    Less,
    Equal,
    Greater,
    Apart,
}

/// The sides from which an equation is used.
#[derive(Clone, Copy, Debug, PartialEq, Eq)]
pub struct Sides {
    pub left: bool,
    pub right: bool,
}

/// How two terms compare in the Knuth-Bendix order.
pub fn kbo_compare(left: &Term, right: &Term) -> Compare
    ensures { IsComparison left.now right.now result }
{
    if equal_term(left, right) {
        return Compare::Equal;
    }
    if is_greater(left, right) {
        return Compare::Greater;
    }
    if is_greater(right, left) {
        return Compare::Less;
    }
    Compare::Apart
}

/// The sides of an equation that aren't less than the other.
pub fn sides_not_less(left: &Term, right: &Term) -> Sides
    ensures left { IsTrue result.left ↔ IsNotLess left.now right.now }
    ensures right { IsTrue result.right ↔ IsNotLess right.now left.now }
{
    match kbo_compare(left, right) {
        Compare::Less => Sides {
            left: false,
            right: true,
        },
        Compare::Greater => Sides {
            left: true,
            right: false,
        },
        Compare::Equal => Sides {
            left: true,
            right: true,
        },
        Compare::Apart => Sides {
            left: true,
            right: true,
        },
    }
}

/// Whether the first term is greater.
#[cycle(greater)]
pub fn is_greater(left: &Term, right: &Term) -> bool
    ensures { IsTrue result ↔ IsGreater left.now right.now }
{
    let left_weight = weight(left);
    let right_weight = weight(right);
    if right_weight < left_weight {
        return has_variables_of(left, right);
    }
    if left_weight < right_weight {
        return false;
    }
    if !is_greater_inside(left, right) {
        return false;
    }
    has_variables_of(left, right)
}

/// Whether the first term has the greater head, or the same head and greater arguments.
#[cycle(greater)]
fn is_greater_inside(left: &Term, right: &Term) -> bool
    ensures { IsTrue result ↔ IsGreaterInside left.now right.now }
{
    match (left, right) {
        (Term::App(head, args), Term::App(other, others)) => {
            if *other == *head {
                return exceed_at_first(args.as_slice(), others.as_slice());
            }
            *other < *head
        }
        _ => false,
    }
}

/// Whether the first list has the greater term at the first place where the lists differ.
#[cycle(greater)]
pub fn exceed_at_first(left: &[Term], right: &[Term]) -> bool
    ensures { IsTrue result ↔ ExceedAtFirst left.now right.now }
{
    for at in 0..left.len() {
        if at >= right.len() {
            return false;
        }
        if !equal_term(&left[at], &right[at]) {
            return is_greater(&left[at], &right[at]);
        }
    }
    false
}
