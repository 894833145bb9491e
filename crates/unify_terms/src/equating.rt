ghost use Rattle.std.specs.Prelude.{◌≡◌, ◌≢◌, ◌≤◌, length, None};
ghost use Rattle.fof_terms.specs.Sorts.{sort_of_term};
ghost use Rattle.fof_terms.specs.declared.term.Term.{Var};
ghost use Rattle.unify_terms.specs.Unifiers.{AreSorted, Unifies};
ghost use Rattle.unify_terms.specs.code.Binding.{AreBound, Same, AllSame, Equated};
ghost use Rattle.unify_terms.specs.code.Graph.{Fit};

use crate::binding::{Equating, bind, resolved};
use crate::pair::Pair;
use crate::scope::Scope;
use fof_terms::{Signature, Term};

// Makes the terms equal.
#[cycle(equate)]
fn equate<'a>(
    left: &'a Term,
    right: &'a Term,
    signature: &Signature,
    scope: &Scope,
    bound: &mut Vec<Option<&'a Term>>,
    steps: &mut u32,
) -> Equating
    requires left { sort_of_term signature.now scope.now.sorts left.now ≢ None }
    requires right { sort_of_term signature.now scope.now.sorts right.now ≢ None }
    requires bound { AreBound signature.now scope.now.sorts scope.now.rigid bound.old.items }
    ensures fewer { steps.new ≤ steps.old }
    ensures equated { Equated signature.now scope.now.sorts scope.now.rigid bound.old.items bound.new.items
        (Same left.now right.now) result }
{
    if *steps == 0 {
        return Equating::Unknown;
    }
    *steps -= 1;
    let left = resolved(left, bound.as_slice());
    let right = resolved(right, bound.as_slice());
    match left {
        Term::Var(variable) => equate_variable(left, *variable, right, signature, scope, bound),
        Term::App(function, args) => match right {
            Term::Var(variable) => bind(*variable, left, signature, scope, bound),
            Term::App(symbol, others) => {
                if function != symbol || args.len() != others.len() {
                    return Equating::Clash;
                }
                equate_all(
                    args.as_slice(),
                    others.as_slice(),
                    signature,
                    scope,
                    bound,
                    steps,
                )
            }
        },
    }
}

// The same of terms at the same places.
#[cycle(equate)]
fn equate_all<'a>(
    left: &'a [Term],
    right: &'a [Term],
    signature: &Signature,
    scope: &Scope,
    bound: &mut Vec<Option<&'a Term>>,
    steps: &mut u32,
) -> Equating
    requires size { length left.now ≡ length right.now }
    requires left { Fit signature.now scope.now.sorts left.now }
    requires right { Fit signature.now scope.now.sorts right.now }
    requires bound { AreBound signature.now scope.now.sorts scope.now.rigid bound.old.items }
    ensures fewer { steps.new ≤ steps.old }
    ensures equated { Equated signature.now scope.now.sorts scope.now.rigid bound.old.items bound.new.items
        (AllSame (length left.now) left.now right.now) result }
{
    for at in 0..left.len() {
        match equate(&left[at], &right[at], signature, scope, bound, steps) {
            Equating::Equal => {}
            Equating::Clash => return Equating::Clash,
            Equating::Unknown => return Equating::Unknown,
        }
    }
    Equating::Equal
}

// The same of a variable that is not bound, and a term.
fn equate_variable<'a>(
    left: &'a Term,
    variable: u32,
    right: &'a Term,
    signature: &Signature,
    scope: &Scope,
    bound: &mut Vec<Option<&'a Term>>,
) -> Equating
    requires is { left.now ≡ Var variable }
    requires left { sort_of_term signature.now scope.now.sorts left.now ≢ None }
    requires right { sort_of_term signature.now scope.now.sorts right.now ≢ None }
    requires bound { AreBound signature.now scope.now.sorts scope.now.rigid bound.old.items }
    ensures { Equated signature.now scope.now.sorts scope.now.rigid bound.old.items bound.new.items
        (Same left.now right.now) result }
{
    if let Term::Var(other) = right {
        if *other == variable {
            return Equating::Equal;
        }
        if variable < scope.rigid {
            return bind(*other, left, signature, scope, bound);
        }
    }
    bind(variable, right, signature, scope, bound)
}

/// Makes both sides of each pair equal, in at most so many steps.
pub fn equate_pairs<'a>(
    pairs: &'a [Pair],
    signature: &Signature,
    scope: &Scope,
    bound: &mut Vec<Option<&'a Term>>,
    steps: &mut u32,
) -> Equating
    requires pairs { AreSorted signature.now scope.now.sorts pairs.now }
    requires bound { AreBound signature.now scope.now.sorts scope.now.rigid bound.old.items }
    ensures { Equated signature.now scope.now.sorts scope.now.rigid bound.old.items bound.new.items
        (λ images. Unifies images pairs.now) result }
{
    for pair in pairs {
        match equate(&pair.left, &pair.right, signature, scope, bound, steps) {
            Equating::Equal => {}
            Equating::Clash => return Equating::Clash,
            Equating::Unknown => return Equating::Unknown,
        }
    }
    Equating::Equal
}
