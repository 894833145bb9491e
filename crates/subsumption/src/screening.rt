//! Cheap tests, before anything is bound: where one answers no, no substitution makes the one the other.
ghost use Rattle.std.specs.Prelude.{◌≡◌, false};
ghost use Rattle.clause_form.specs.declared.clause.AtomOf.TheVariants.{Eq as Equation};
ghost use Rattle.subsumption.specs.code.Screens.{NeverBoth, NeverEqual, NeverEquals, NeverSame, NeverSameAtom};
ghost use Rattle.subsumption.specs.code.Screens.{SomeNowhere, StandsNowhere};

use clause_form::{AtomOf, Lit};
use fof_terms::Term;

/// Whether each of the literals fits one of the others.
pub fn all_fit(targets: &[Lit], lits: &[Lit]) -> bool
    ensures { result ≡ false → SomeNowhere targets.now lits.now }
{
    for lit in lits {
        if !fits_one(targets, lit) {
            return false;
        }
    }
    true
}

// Whether the literal fits one of the others.
fn fits_one(targets: &[Lit], lit: &Lit) -> bool
    ensures { result ≡ false → StandsNowhere targets.now lit.now }
{
    for target in targets {
        if lit_fits(lit, target) {
            return true;
        }
    }
    false
}

// Whether the literal fits the other.
fn lit_fits(lit: &Lit, target: &Lit) -> bool
    ensures { result ≡ false → NeverSame lit.now target.now }
{
    if lit.positive != target.positive {
        return false;
    }
    atoms_fit(&lit.atom, &target.atom)
}

// Whether the heads of the atoms fit, up to the sides of an equation.
fn atoms_fit(atom: &AtomOf, target: &AtomOf) -> bool
    ensures { result ≡ false → NeverSameAtom atom.now target.now }
{
    match atom {
        AtomOf::Pred(predicate, args) => match target {
            AtomOf::Pred(other, others) => {
                predicate == other && terms_fit(args.as_slice(), others.as_slice())
            }
            _ => false,
        },
        AtomOf::Eq(left, right) => match target {
            AtomOf::Eq(first, second) => {
                both_fit(left, first, right, second) || both_fit(right, first, left, second)
            }
            _ => false,
        },
        AtomOf::True => matches!(target, AtomOf::True),
        AtomOf::False => matches!(target, AtomOf::False),
    }
}

// Whether both terms fit the others.
fn both_fit(one: &Term, first: &Term, other: &Term, second: &Term) -> bool
    ensures { result ≡ false → NeverBoth one.now first.now other.now second.now }
{
    term_fits(one, first) && term_fits(other, second)
}

// Whether the symbols of the terms are the same, but where the first has a variable.
#[cycle(term_fits)]
fn term_fits(term: &Term, target: &Term) -> bool
    ensures { result ≡ false → NeverEqual term.now target.now }
{
    match term {
        Term::Var(_) => true,
        Term::App(function, args) => match target {
            Term::Var(_) => false,
            Term::App(other, others) => {
                function == other && terms_fit(args.as_slice(), others.as_slice())
            }
        },
    }
}

// The same of two lists of terms.
#[cycle(term_fits)]
fn terms_fit(terms: &[Term], targets: &[Term]) -> bool
    ensures { result ≡ false → NeverEquals terms.now targets.now }
{
    if terms.len() != targets.len() {
        return false;
    }
    for i in 0..terms.len() {
        if !term_fits(&terms[i], &targets[i]) {
            return false;
        }
    }
    true
}
