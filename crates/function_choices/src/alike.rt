// Atoms that are alike but for their variables.
ghost use Rattle.std.specs.Prelude.{◌≡◌, ◌&&◌, map};
ghost use Rattle.std.specs.List.{list_any};
ghost use Rattle.function_choices.specs.Alike.{atoms_alike, each_alike, has_head as is_of, is_alike, pass};
ghost use Rattle.function_choices.specs.declared.atoms.Placed.{Placed as Atomic};

use crate::atoms::Placed;
use clause_form::AtomOf;
use fof_terms::{SymId, Term};

// Whether each of the atoms is alike to one of the others, with terms of the function wherever the variable stands that
// has the number of the quantifiers around it.
pub(crate) fn all_alike(patterns: &[Placed], function: SymId, atoms: &[Placed]) -> bool
    ensures { result ≡ each_alike function patterns.now atoms.now }
{
    for pattern in patterns {
        if !some_alike(pattern, function, atoms) {
            return false;
        }
    }
    true
}

// Whether the atom is alike to one of the others.
fn some_alike(pattern: &Placed, function: SymId, atoms: &[Placed]) -> bool
    ensures { result ≡ list_any (λ (a : Atomic). atoms_alike function pattern.now.depth pattern.now.atom a.atom) atoms.now }
{
    for placed in atoms {
        if alike_atom(&pattern.atom, function, pattern.depth, &placed.atom) {
            return true;
        }
    }
    false
}

// Whether the atoms are alike, the sides of an equation in either order.
pub(crate) fn alike_atom(pattern: &AtomOf, function: SymId, variable: u32, atom: &AtomOf) -> bool
    ensures { result ≡ atoms_alike function variable pattern.now atom.now }
{
    match pattern {
        AtomOf::Pred(head, patterns) => match atom {
            AtomOf::Pred(other, terms) => {
                head == other
                    && alike_terms(patterns.as_slice(), function, variable, terms.as_slice())
            }
            _ => false,
        },
        AtomOf::Eq(first, second) => match atom {
            AtomOf::Eq(left, right) => {
                alike_both(first, second, function, variable, left, right)
                    || alike_both(first, second, function, variable, right, left)
            }
            _ => false,
        },
        AtomOf::True | AtomOf::False => false,
    }
}

// Whether both terms are alike to their partners.
pub(crate) fn alike_both(
    first: &Term,
    second: &Term,
    function: SymId,
    variable: u32,
    left: &Term,
    right: &Term,
) -> bool
    ensures { result ≡ (is_alike function variable first.now left.now && is_alike function variable second.now right.now) }
{
    alike_term(first, function, variable, left) && alike_term(second, function, variable, right)
}

// Whether the second term is the first, with a term of the function wherever the variable stands, and with any terms
// wherever other variables stand.
#[cycle(alike_term)]
#[tactic(auto, using(crate::proofs::AlikeFacts::alike_equations))]
fn alike_term(pattern: &Term, function: SymId, variable: u32, term: &Term) -> bool
    ensures { result ≡ is_alike function variable pattern.now term.now }
{
    match pattern {
        Term::Var(number) => *number != variable || has_head(term, function),
        Term::App(head, patterns) => match term {
            Term::Var(_) => false,
            Term::App(other, terms) => {
                head == other
                    && alike_terms(patterns.as_slice(), function, variable, terms.as_slice())
            }
        },
    }
}

// The same of the terms at each place.
#[cycle(alike_term)]
#[tactic(auto, using(crate::proofs::AlikeFacts::alike_equations))]
fn alike_terms(patterns: &[Term], function: SymId, variable: u32, terms: &[Term]) -> bool
    ensures { result ≡ pass (map (is_alike function variable) patterns.now) terms.now }
{
    if patterns.len() != terms.len() {
        return false;
    }
    for at in 0..patterns.len() {
        if !alike_term(&patterns[at], function, variable, &terms[at]) {
            return false;
        }
    }
    true
}

// Whether the term is one of the function.
#[tactic(auto, using(crate::proofs::AlikeFacts::alike_equations))]
fn has_head(term: &Term, function: SymId) -> bool
    ensures { result ≡ is_of function term.now }
{
    match term {
        Term::Var(_) => false,
        Term::App(head, _) => *head == function,
    }
}
