//! Matching: whether terms become others under what the variables are bound to, and what they are bound to then.
ghost use Rattle.std.specs.Prelude.{◌≡◌, map, length, reverse, IfOk, OnOk};
ghost use Rattle.std.specs.List.{All as Each};
ghost use Rattle.clause_form.specs.Images.{image};
ghost use Rattle.subsumption.specs.code.Bound.{images_of, IsOver};
ghost use Rattle.subsumption.specs.code.Matched.{IsMatched, IsWithin, KeepsSort, KeepsSorts};

use crate::bindings::Bindings;
use fof_terms::Term;
use tptp_base::Memory;

/// Whether the term becomes the other.
#[cycle(matching)]
pub fn match_term<'a>(
    bindings: &mut Bindings<'a>,
    term: &Term,
    target: &'a Term,
) -> Result<bool, Memory>
    requires { IsWithin (length (images_of bindings.old)) term.now }
    ensures over { OnOk result (IsOver bindings.old bindings.new) }
    ensures matched { IfOk result (λ answer.
        IsMatched bindings.old bindings.new (λ s. image s term.now ≡ target.now) answer) }
    ensures sorted { OnOk result (KeepsSort bindings.old bindings.new term.now target.now) }
{
    match term {
        Term::Var(variable) => bindings.bind(*variable, target),
        Term::App(function, args) => match target {
            Term::Var(_) => Ok(false),
            Term::App(other, others) => {
                if function != other {
                    return Ok(false);
                }
                match_terms(bindings, args.as_slice(), others.as_slice())
            }
        },
    }
}

/// Whether the terms become the others, each that at its place.
#[cycle(matching)]
pub fn match_terms<'a>(
    bindings: &mut Bindings<'a>,
    terms: &[Term],
    targets: &'a [Term],
) -> Result<bool, Memory>
    requires { Each (IsWithin (length (images_of bindings.old))) terms.now }
    ensures over { OnOk result (IsOver bindings.old bindings.new) }
    ensures matched { IfOk result (λ answer.
        IsMatched bindings.old bindings.new (λ s. map (image s) terms.now ≡ targets.now) answer) }
    ensures sorted { OnOk result (KeepsSorts bindings.old bindings.new terms.now targets.now) }
{
    if terms.len() != targets.len() {
        return Ok(false);
    }
    for i in 0..terms.len() {
        if !match_term(bindings, &terms[i], &targets[i])? {
            return Ok(false);
        }
    }
    Ok(true)
}
