//! Whether a goal has a chance to be met: a cheap test before a search, which looks at the symbols of the terms alone.
//! Where it answers no, no substitution meets the goal.
ghost use Rattle.std.specs.Prelude.{◌≡◌, false};
ghost use Rattle.substitution_search.specs.code.Chances.{NeverEach, NeverInstance, NeverInstances, NeverMet, NeverOne};
ghost use Rattle.substitution_search.specs.code.Chances.{NeverUnified};

use fof_terms::Term;
use unify_terms::{Goal, Pair};

/// Whether a substitution that leaves the variables below `rigid` as they are may meet the goal.
#[cycle(may_be_met)]
pub fn may_be_met(goal: &Goal, rigid: u32) -> bool
    ensures { result ≡ false → NeverMet rigid goal.now }
{
    match goal {
        Goal::All(goals) => may_each_be_met(goals.as_slice(), rigid),
        Goal::Any(goals) => may_one_be_met(goals.as_slice(), rigid),
        Goal::Same(pairs) => may_be_unified(pairs.as_slice(), rigid),
    }
}

// Whether all of the goals may be met.
#[cycle(may_be_met)]
fn may_each_be_met(goals: &[Goal], rigid: u32) -> bool
    ensures { result ≡ false → NeverEach rigid goals.now }
{
    for at in 0..goals.len() {
        if !may_be_met(&goals[at], rigid) {
            return false;
        }
    }
    true
}

// Whether one of the goals may be met.
#[cycle(may_be_met)]
fn may_one_be_met(goals: &[Goal], rigid: u32) -> bool
    ensures { result ≡ false → NeverOne rigid goals.now }
{
    for at in 0..goals.len() {
        if may_be_met(&goals[at], rigid) {
            return true;
        }
    }
    false
}

// Whether the terms of each pair may become equal.
fn may_be_unified(pairs: &[Pair], rigid: u32) -> bool
    ensures { result ≡ false → NeverUnified rigid pairs.now }
{
    for at in 0..pairs.len() {
        let pair = &pairs[at];
        if !may_be_equal(&pair.left, &pair.right, rigid) {
            return false;
        }
    }
    true
}

// Whether the terms may become equal.
#[cycle(may_be_equal)]
fn may_be_equal(left: &Term, right: &Term, rigid: u32) -> bool
    ensures { result ≡ false → NeverInstance rigid left.now right.now }
{
    match left {
        Term::Var(variable) => match right {
            Term::Var(other) => {
                if variable == other {
                    return true;
                }
                *variable >= rigid || *other >= rigid
            }
            Term::App(_, _) => *variable >= rigid,
        },
        Term::App(function, args) => match right {
            Term::Var(variable) => *variable >= rigid,
            Term::App(other, others) => {
                if function != other {
                    return false;
                }
                may_all_be_equal(args.as_slice(), others.as_slice(), rigid)
            }
        },
    }
}

// Whether the terms at the same places of two lists may become equal.
#[cycle(may_be_equal)]
fn may_all_be_equal(left: &[Term], right: &[Term], rigid: u32) -> bool
    ensures { result ≡ false → NeverInstances rigid left.now right.now }
{
    if left.len() != right.len() {
        return false;
    }
    for at in 0..left.len() {
        if !may_be_equal(&left[at], &right[at], rigid) {
            return false;
        }
    }
    true
}
