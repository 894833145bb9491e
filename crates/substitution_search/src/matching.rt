//! Cheap tests of terms and atoms: where one answers no, no instances of the two are the same. They look at the symbols
//! alone, and at the variables of the line, which stand for themselves.
ghost use Rattle.std.specs.Prelude.{◌≡◌, false, ℕ};
ghost use Rattle.fof_terms.specs.declared.term.Term.{Term as SomeTerm};
ghost use Rattle.clause_form.specs.declared.clause.AtomOf.TheVariants.{Eq as Equation};
ghost use Rattle.clause_form.specs.Images.{image};
ghost use Rattle.substitution_search.specs.Screens.{NeverEqual, Stays};
ghost use Rattle.substitution_search.specs.code.Screens.{NeverEquals, NeverSame};

use crate::heads::same_head;
use clause_form::AtomOf;
use fof_terms::Term;

/// Whether the terms may have instances that are the same. Where the second one is the line's, it stays as it is.
#[cycle(may_meet)]
pub fn may_meet(left: &Term, right: &Term, is_line: bool) -> bool
    ensures { result ≡ false → NeverEqual is_line left.now right.now }
{
    match left {
        Term::Var(_) => true,
        Term::App(function, args) => match right {
            Term::Var(_) => !is_line,
            Term::App(other, others) => {
                if function != other {
                    return false;
                }
                may_all_meet(args.as_slice(), others.as_slice(), is_line)
            }
        },
    }
}

/// The same of two lists of terms.
#[cycle(may_meet)]
pub fn may_all_meet(left: &[Term], right: &[Term], is_line: bool) -> bool
    ensures { result ≡ false → NeverEquals is_line left.now right.now }
{
    if left.len() != right.len() {
        return false;
    }
    for i in 0..left.len() {
        if !may_meet(&left[i], &right[i], is_line) {
            return false;
        }
    }
    true
}

/// The same of two atoms, up to the sides of an equation.
pub fn may_be_same(left: &AtomOf, right: &AtomOf, is_line: bool) -> bool
    ensures { result ≡ false → NeverSame is_line left.now right.now }
{
    if !same_head(left, right) {
        return false;
    }
    match left {
        AtomOf::Pred(_, args) => match right {
            AtomOf::Pred(_, others) => may_all_meet(args.as_slice(), others.as_slice(), is_line),
            _ => true,
        },
        AtomOf::Eq(first, second) => match right {
            AtomOf::Eq(third, fourth) => may_sides_meet(first, second, third, fourth, is_line),
            _ => true,
        },
        AtomOf::True | AtomOf::False => true,
    }
}

// The same of the sides of two equations, in one order or the other.
fn may_sides_meet(first: &Term, second: &Term, third: &Term, fourth: &Term, is_line: bool) -> bool
    ensures { result ≡ false → NeverSame is_line (Equation first.now second.now) (Equation third.now fourth.now) }
{
    if may_both_meet(first, third, second, fourth, is_line) {
        return true;
    }
    may_both_meet(second, third, first, fourth, is_line)
}

// Whether both pairs of terms may meet.
fn may_both_meet(first: &Term, second: &Term, third: &Term, fourth: &Term, is_line: bool) -> bool
    ensures { result ≡ false → (s r : ℕ → SomeTerm) → Stays is_line r → image s first.now ≡ image r second.now
        → image s third.now ≡ image r fourth.now → ⊥ }
{
    if !may_meet(first, second, is_line) {
        return false;
    }
    may_meet(third, fourth, is_line)
}
