//! Cheap tests of literals: where one answers no, no substitution covers the literals that are to be covered.
ghost use Rattle.std.specs.Prelude.{◌≡◌, ◌<◌, false, length};
ghost use Rattle.substitution_search.specs.code.Screens.{NeverAbsurd, NeverAmong, NeverBecomes, NeverStays};
ghost use Rattle.substitution_search.specs.Screens.{NeverAll, NeverClash, NeverCovered, NeverOthers, NeverPivot};
ghost use Rattle.substitution_search.specs.Screens.{NeverTogether};

use crate::matching::{may_be_same, may_meet};
use clause_form::{AtomOf, Lit};

/// Whether the literals may have complementary instances.
pub fn may_clash(left: &Lit, right: &Lit) -> bool
    ensures { result ≡ false → NeverClash left.now right.now }
{
    if left.positive == right.positive {
        return false;
    }
    may_be_same(&left.atom, &right.atom, false)
}

// Whether an instance of the literal may be one of the other. Where that is the line's, it stays as it is.
fn may_become(lit: &Lit, other: &Lit, is_line: bool) -> bool
    ensures { result ≡ false → NeverBecomes is_line lit.now other.now }
{
    if lit.positive != other.positive {
        return false;
    }
    may_be_same(&lit.atom, &other.atom, is_line)
}

// Whether an instance of the literal may be false by its form.
fn may_be_absurd(lit: &Lit) -> bool
    ensures { result ≡ false → NeverAbsurd lit.now }
{
    match &lit.atom {
        AtomOf::Pred(_, _) => false,
        AtomOf::Eq(left, right) => {
            if lit.positive {
                return false;
            }
            may_meet(left, right, false)
        }
        AtomOf::True => !lit.positive,
        AtomOf::False => lit.positive,
    }
}

/// Whether an instance of the literal may be covered by the line.
pub fn may_be_covered(line: &[Lit], lit: &Lit) -> bool
    ensures { result ≡ false → NeverCovered line.now lit.now }
{
    for target in line {
        if may_become(lit, target, true) {
            return true;
        }
    }
    may_be_absurd(lit)
}

/// Whether instances of all the literals may be covered by the line and that of literal i.
pub fn may_be_pivot(line: &[Lit], lits: &[Lit], i: usize) -> bool
    requires { i < length lits.now }
    ensures { result ≡ false → NeverPivot line.now lits.now i }
{
    for at in 0..lits.len() {
        if !may_stay(line, &lits[at], &lits[i]) {
            return false;
        }
    }
    true
}

// Whether an instance of the literal may be covered by the line or be one of the pivot.
fn may_stay(line: &[Lit], lit: &Lit, pivot: &Lit) -> bool
    ensures { result ≡ false → NeverStays line.now lit.now pivot.now }
{
    if may_become(lit, pivot, false) {
        return true;
    }
    may_be_covered(line, lit)
}

/// Whether instances of all literals but literal i may be covered by the line.
pub fn may_others_be_covered(line: &[Lit], lits: &[Lit], i: usize) -> bool
    ensures { result ≡ false → NeverOthers line.now lits.now i }
{
    for at in 0..lits.len() {
        if at != i {
            if !may_be_covered(line, &lits[at]) {
                return false;
            }
        }
    }
    true
}

/// Whether instances of all the literals may be covered by the line.
pub fn may_all_be_covered(line: &[Lit], lits: &[Lit]) -> bool
    ensures { result ≡ false → NeverAll line.now lits.now }
{
    for at in 0..lits.len() {
        if !may_be_covered(line, &lits[at]) {
            return false;
        }
    }
    true
}

/// Whether instances of all the literals may be among those of the targets, or false by their form.
pub fn may_all_become(targets: &[Lit], lits: &[Lit]) -> bool
    ensures { result ≡ false → NeverTogether targets.now lits.now }
{
    for at in 0..lits.len() {
        if !may_become_one(targets, &lits[at]) {
            return false;
        }
    }
    true
}

// Whether an instance of the literal may be one of those of the targets, or false by its form.
fn may_become_one(targets: &[Lit], lit: &Lit) -> bool
    ensures { result ≡ false → NeverAmong targets.now lit.now }
{
    for target in targets {
        if may_become(lit, target, false) {
            return true;
        }
    }
    may_be_absurd(lit)
}
