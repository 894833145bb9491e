// What is matched with the variables of a term.
ghost use Rattle.std.specs.Prelude.{◌≡◌, ◌++◌, ◌∷◌, [], OnOk, map};
ghost use Rattle.function_choices.specs.Matched.{at_each, matched as matched_with, matches as matches_of};

use fof_terms::Term;
use std::alloc::Global;
use tptp_base::{List, Memory};

/// A variable of one term, and the term in its place in another.
#[derive(Drop)]
pub struct Matched {
    pub variable: u32,
    pub term: Term,
}

// Adds each variable of the first term, from the left, with the term in its place in the second.
#[cycle(match_term)]
#[tactic(auto, using(crate::proofs::MatchedFacts::matched_equations))]
pub(crate) fn match_term(
    alloc: Global,
    pattern: &Term,
    term: &Term,
    matched: &mut List<Matched>,
) -> Result<(), Memory>
    ensures { OnOk result (matched.new ≡ matched.old ++ matches_of pattern.now term.now) }
{
    match pattern {
        Term::Var(variable) => push_matched(alloc, *variable, term, matched),
        Term::App(_, patterns) => match term {
            Term::Var(_) => Ok(()),
            Term::App(_, terms) => {
                match_terms(alloc, patterns.as_slice(), terms.as_slice(), matched)
            }
        },
    }
}

// The same of the terms at each place.
#[cycle(match_term)]
#[tactic(auto, using(crate::proofs::MatchedFacts::matched_equations))]
pub(crate) fn match_terms(
    alloc: Global,
    patterns: &[Term],
    terms: &[Term],
    matched: &mut List<Matched>,
) -> Result<(), Memory>
    ensures { OnOk result (matched.new ≡ matched.old ++ at_each (map matches_of patterns.now) terms.now) }
{
    for at in 0..patterns.len() {
        if at >= terms.len() {
            return Ok(());
        }
        match_term(alloc, &patterns[at], &terms[at], matched)?;
    }
    Ok(())
}

fn push_matched(
    alloc: Global,
    variable: u32,
    term: &Term,
    matched: &mut List<Matched>,
) -> Result<(), Memory>
    ensures { OnOk result (matched.new ≡ matched.old ++ matched_with variable term.now ∷ []) }
{
    let term = term.copy(alloc)?;
    matched.push(Matched { variable, term })?;
    Ok(())
}
