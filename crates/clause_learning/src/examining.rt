//! How a clause stands under a trail.
ghost use Rattle.std.specs.Prelude.{◌≡◌};
ghost use Rattle.clause_learning.specs.code.States.{IsFound};

use crate::literal::Literal;
use crate::trail::Trail;

/// A clause that is false, one that has one literal which is not and has no value, or any other.
#[derive(Clone, Copy, Drop)]
pub enum Finding {
    Broken,
    Unit(Literal),
    Loose,
}

/// How the clause stands.
pub fn examine(lits: &[Literal], trail: &Trail) -> Finding
    ensures { IsFound trail.now.values lits.now result }
{
    let mut open = None;
    for lit in lits {
        match trail.value(lit.atom) {
            Some(value) => {
                if value.positive == lit.positive {
                    return Finding::Loose;
                }
            }
            None => {
                if open.is_some() {
                    return Finding::Loose;
                }
                open = Some(*lit);
            }
        }
    }
    match open {
        Some(lit) => Finding::Unit(lit),
        None => Finding::Broken,
    }
}
