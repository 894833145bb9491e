ghost use Rattle.std.specs.Prelude.{◌≡◌};
ghost use Rattle.substitution_search.specs.code.Heads.{is_same_head};

use clause_form::AtomOf;

/// Whether the atoms have one predicate, or both are equations, truth or falsehood. Atoms for which this is not so have
/// no instances that are the same.
pub fn same_head(left: &AtomOf, right: &AtomOf) -> bool
    ensures { result ≡ is_same_head left.now right.now }
{
    match (left, right) {
        (AtomOf::Pred(symbol, _), AtomOf::Pred(other, _)) => symbol == other,
        (AtomOf::Eq(_, _), AtomOf::Eq(_, _))
        | (AtomOf::True, AtomOf::True)
        | (AtomOf::False, AtomOf::False) => true,
        _ => false,
    }
}
