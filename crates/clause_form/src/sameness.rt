ghost use Rattle.std.specs.Prelude.{◌≡◌, ◌⊎◌, IsTrue, ◌↔◌};
ghost use Rattle.clause_form.specs.Covers.{AreComplementary, Denies, HasOne, IsAbsurd, IsSameAtom, IsTrivial, negated};

use crate::clause::{AtomOf, Clause, Lit};
use fof_terms::{equal_term, equal_terms};

/// Whether the atoms are the same up to the sides of an equation.
pub fn same_atoms(left: &AtomOf, right: &AtomOf) -> bool
    ensures { IsTrue result ↔ IsSameAtom left.now right.now }
{
    match left {
        AtomOf::Pred(symbol, args) => match right {
            AtomOf::Pred(other, others) => *symbol == *other
                && equal_terms(args.as_slice(), others.as_slice()),
            _ => false,
        },
        AtomOf::Eq(first, second) => match right {
            AtomOf::Eq(third, fourth) => {
                if equal_term(first, third) && equal_term(second, fourth) {
                    return true;
                }
                equal_term(second, third) && equal_term(first, fourth)
            }
            _ => false,
        },
        AtomOf::True => matches!(right, AtomOf::True),
        AtomOf::False => matches!(right, AtomOf::False),
    }
}

/// Whether the literal of this atom and sign is false by its form.
pub fn denies(atom: &AtomOf, positive: bool) -> bool
    ensures { IsTrue result ↔ Denies atom.now positive }
{
    match atom {
        AtomOf::Pred(_, _) => false,
        AtomOf::Eq(left, right) => !positive && equal_term(left, right),
        AtomOf::True => !positive,
        AtomOf::False => positive,
    }
}

/// Whether one is positive, one negative, with the same atom up to the sides of an equation.
pub fn are_complementary(left: &Lit, right: &Lit) -> bool
    ensures { IsTrue result ↔ AreComplementary left.now right.now }
{
    left.positive != right.positive && same_atoms(&left.atom, &right.atom)
}

/// Whether one of the literals is true by its form.
fn has_truth(lits: &[Lit]) -> bool
    ensures { IsTrue result ↔ HasOne (λ l. IsAbsurd (negated l)) lits.now }
{
    for lit in lits {
        if denies(&lit.atom, !lit.positive) {
            return true;
        }
    }
    false
}

/// Whether one of the literals is complementary to this one.
fn has_opposite(lits: &[Lit], to: &Lit) -> bool
    ensures { IsTrue result ↔ HasOne (AreComplementary to.now) lits.now }
{
    for lit in lits {
        if are_complementary(to, lit) {
            return true;
        }
    }
    false
}

/// Whether two of the literals are complementary.
fn has_opposites(lits: &[Lit]) -> bool
    ensures { IsTrue result ↔ HasOne (λ k. HasOne (AreComplementary k) lits.now) lits.now }
{
    for lit in lits {
        if has_opposite(lits, lit) {
            return true;
        }
    }
    false
}

/// Whether the clause is true by its form.
pub fn is_trivial(clause: &Clause) -> bool
    ensures { IsTrue result ↔ IsTrivial clause.now.lits }
{
    let lits = clause.lits.as_slice();
    if has_truth(lits) {
        return true;
    }
    has_opposites(lits)
}
