//! Clauses that paths reach in formulas, made once for all parts.
ghost use Rattle.std.specs.Prelude.{◌<◌, ◌≤◌, [], IfOk, IfSome};
ghost use Rattle.fof_terms.specs.Sorts.{Sorted};
ghost use Rattle.clause_form.specs.Sizes.{norm_size_of};
ghost use Rattle.clause_rules.specs.Settled.{IsFit};
ghost use Rattle.norm_parts.specs.code.Candidates.{AreAdded, AreFitting, CoversClause, IsChosen};

use clause_form::{Clause, Path, clause_of_path};
use clause_proofs::number;
use fof_terms::{Form, Signature};
use rule_steps::cover_clause;
use std::alloc::Global;
use substitution_search::may_all_be_covered;
use tptp_base::{Boxed, List, Memory};
use unify_terms::Subst;

/// A clause that the path reaches in the formula of that number in some list.
#[derive(Drop)]
pub struct Candidate {
    pub source: usize,
    pub path: Path,
    pub clause: Clause,
}

/// The number of a candidate in a list, and a substitution under which a clause covers it.
#[derive(Drop)]
pub struct Chosen {
    pub at: usize,
    pub subst: Subst,
}

/// Adds clauses of the formula, which has that number: those that paths reach which split no disjunction.
pub fn add_candidates(
    alloc: Global,
    signature: &Signature,
    candidates: &mut List<Candidate>,
    source: usize,
    form: &Form,
) -> Result<(), Memory>
    requires small { norm_size_of form.now ≤ 100000 }
    requires sorted { Sorted signature.now [] form.now }
    ensures { IfOk result (λ done. AreAdded signature.now source form.now candidates.old candidates.new) }
{
    let mut left = plain_paths(form, alloc)?;
    while let Some(path) = left.pop() {
        add_reached(alloc, signature, candidates, source, form, path)?;
    }
    Ok(())
}

// Adds the clause that the path reaches in the formula, if there is one.
fn add_reached(
    alloc: Global,
    signature: &Signature,
    candidates: &mut List<Candidate>,
    source: usize,
    form: &Form,
    path: Path,
) -> Result<(), Memory>
    requires small { norm_size_of form.now ≤ 100000 }
    requires sorted { Sorted signature.now [] form.now }
    ensures { IfOk result (λ done. AreAdded signature.now source form.now candidates.old candidates.new) }
{
    match clause_of_path(alloc, form, &path)? {
        Some(clause) => {
            candidates.push(Candidate {
                source,
                path,
                clause,
            })?;
            Ok(())
        }
        None => Ok(()),
    }
}

// The paths that split no disjunction, the last one first.
#[cycle(plain_paths)]
fn plain_paths(form: &Form, alloc: Global) -> Result<List<Path>, Memory> {
    let mut paths = List::new(alloc);
    match form {
        Form::And(members) => {
            push_members(members.as_slice(), alloc, &mut paths)?;
        }
        Form::All(_, body) => {
            let inner = plain_paths(body.get(), alloc)?;
            push_under(alloc, &mut paths, inner)?;
        }
        Form::Or(members) => paths.push(literal_path(alloc, members.len())?)?,
        Form::Atom(_, _)
        | Form::Eq(_, _)
        | Form::Not(_)
        | Form::Imp(_, _)
        | Form::Iff(_, _)
        | Form::Ex(_, _) => paths.push(Path::Leaf)?,
    }
    Ok(paths)
}

// Adds the paths to the members of a conjunction.
#[cycle(plain_paths)]
fn push_members(forms: &[Form], alloc: Global, paths: &mut List<Path>) -> Result<(), Memory> {
    for at in 0..forms.len() {
        let last = forms.len() - 1 - at;
        let inner = plain_paths(&forms[last], alloc)?;
        push_picked(alloc, paths, number(last)?, inner)?;
    }
    Ok(())
}

// Adds the paths, behind that member of a conjunction.
fn push_picked(
    alloc: Global,
    paths: &mut List<Path>,
    member: u32,
    inner: List<Path>,
) -> Result<(), Memory> {
    let mut left = inner;
    while let Some(path) = left.pop() {
        paths.push(Path::Pick(member, Boxed::new(alloc, path)?))?;
    }
    Ok(())
}

// Adds the paths, behind a universal quantifier.
fn push_under(alloc: Global, paths: &mut List<Path>, inner: List<Path>) -> Result<(), Memory> {
    let mut left = inner;
    while let Some(path) = left.pop() {
        paths.push(Path::Under(Boxed::new(alloc, path)?))?;
    }
    Ok(())
}

// The path to all of so many literals.
fn literal_path(alloc: Global, count: usize) -> Result<Path, Memory> {
    let mut ways = List::new(alloc);
    for _ in 0..count {
        ways.push(Path::Leaf)?;
    }
    Ok(Path::Each(ways))
}

/// A candidate that the line covers: the first one from that number on, and then from the first of all on.
pub fn first_covered(
    alloc: Global,
    signature: &Signature,
    candidates: &[Candidate],
    line: &Clause,
    from: usize,
) -> Result<Option<Chosen>, Memory>
    requires candidates { AreFitting signature.now candidates.now }
    requires line { IsFit signature.now line.now }
    ensures { IfOk result (λ found. IfSome found (IsChosen signature.now candidates.now line.now)) }
{
    for step in 0..candidates.len() {
        let at = place_behind(from, step, candidates.len());
        let found = covered_by(alloc, signature, &candidates[at].clause, line)?;
        if let Some(subst) = found {
            return Ok(Some(Chosen { at, subst }));
        }
    }
    Ok(None)
}

// The place so many steps behind that one, in a round of so many places.
fn place_behind(from: usize, steps: usize, count: usize) -> usize
    requires { steps < count }
    ensures { result < count }
{
    let start = from % count;
    let left = count - start;
    if steps < left {
        start + steps
    } else {
        steps - left
    }
}

// A substitution under which the line covers the clause. A cheap test comes first.
fn covered_by(
    alloc: Global,
    signature: &Signature,
    clause: &Clause,
    line: &Clause,
) -> Result<Option<Subst>, Memory>
    requires clause { IsFit signature.now clause.now }
    requires line { IsFit signature.now line.now }
    ensures { IfOk result (λ found. IfSome found (CoversClause signature.now clause.now line.now)) }
{
    if !may_all_be_covered(line.lits.as_slice(), clause.lits.as_slice()) {
        return Ok(None);
    }
    cover_clause(alloc, signature, clause, line)
}
