//! A cheap test, before anything is copied: where it answers no, no instances of two terms are equal.
ghost use Rattle.std.specs.Prelude.{◌≡◌, false};
ghost use Rattle.superpose.specs.code.Apart.{NeverAllMeet, NeverMeet};

use fof_terms::Term;

/// Whether the symbols of the terms agree, but where one of them has a variable.
#[cycle(agree)]
pub fn may_meet(left: &Term, right: &Term) -> bool
    ensures { result ≡ false → NeverMeet left.now right.now }
{
    match left {
        Term::Var(_) => true,
        Term::App(symbol, args) => match right {
            Term::Var(_) => true,
            Term::App(other, others) => {
                symbol == other && may_all_meet(args.as_slice(), others.as_slice())
            }
        },
    }
}

/// The same of two lists of terms.
#[cycle(agree)]
pub fn may_all_meet(lefts: &[Term], rights: &[Term]) -> bool
    ensures { result ≡ false → NeverAllMeet lefts.now rights.now }
{
    if lefts.len() != rights.len() {
        return false;
    }
    for i in 0..lefts.len() {
        if !may_meet(&lefts[i], &rights[i]) {
            return false;
        }
    }
    true
}
