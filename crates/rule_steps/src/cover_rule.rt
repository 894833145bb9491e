ghost use Rattle.std.specs.Prelude.{◌≡◌, ◌≤◌, ◌<◌, true, [], Some, IfOk, IfSome, MatchOption};
ghost use Rattle.fof_terms.specs.Sorts.{is_sorted};
ghost use Rattle.clause_form.specs.Covers.{scope_of, CoversBy};
ghost use Rattle.clause_form.specs.Norm.{norm_of, HasNorm};
ghost use Rattle.clause_form.specs.Sizes.{norm_size_of};
ghost use Rattle.clause_rules.specs.declared.just.Just.TheVariants.{Cover};
ghost use Rattle.clause_rules.specs.Answers.{IsAnswer, cover};
ghost use Rattle.rule_steps.specs.code.CoverFound.{FoundCover, FoundInForm, FoundCoverAmong, SettlesReached};
ghost use Rattle.rule_steps.specs.code.CoverFound.{ShowsCover};
ghost use Rattle.clause_rules.specs.Settled.{IsFit, Settles};
ghost use Rattle.clause_rules.specs.Steps.{AreReady, IsReady};

use clause_form::{Clause, FormFault, Parent, Path, as_clause, clause_of_path, norm};
use clause_rules::{Just, join_one, scope_of_clause};
use fof_terms::{Form, Signature};
use std::alloc::Global;
use substitution_search::{
    Reached, may_reach, open, reached_by, settle_covers, settle_narrowed, solution_of,
};
use tptp_base::{Boxed, List, Memory};
use unify_terms::{Scope, Solution, Subst};

/// A path, and a substitution that covers what it reaches.
#[derive(Drop)]
pub struct Covering {
    pub path: Path,
    pub subst: Subst,
}

/// A justification by the rule `cover`: the line covers what some path reaches in a parent's normal form. None exactly
/// where no parent has one; a parent whose norm size is over 100,000 has none.
pub fn cover_step(
    alloc: Global,
    sig: &Signature,
    parents: &[Parent],
    line: &Form,
) -> Result<Option<Just>, Memory>
    requires parents { AreReady sig.now parents.now }
    requires line { IsReady sig.now line.now }
    ensures { IfOk result (λ answer. IsAnswer sig.now parents.now line.now cover answer) }
{
    match as_clause(alloc, line)? {
        Some(line) => cover_among(alloc, sig, parents, &line),
        None => Ok(None),
    }
}

/// A covering of one of the parents by the clause.
pub fn cover_among(
    alloc: Global,
    sig: &Signature,
    parents: &[Parent],
    line: &Clause,
) -> Result<Option<Just>, Memory>
    requires parents { AreReady sig.now parents.now }
    requires line { IsFit sig.now line.now }
    ensures { IfOk result (λ found. FoundCoverAmong sig.now parents.now line.now found) }
{
    for a in 0..parents.len() {
        let found = cover_form(alloc, sig, &parents[a].form, line)?;
        if let Some(covering) = found {
            return Ok(Some(justified(a, covering)));
        }
    }
    Ok(None)
}

// The justification with this parent.
fn justified(a: usize, covering: Covering) -> Just
    ensures { result ≡ Cover a covering.path covering.subst }
{
    let Covering { path, subst } = covering;
    Just::Cover {
        parent: a,
        path,
        subst,
    }
}

// A covering of the formula.
fn cover_form(
    alloc: Global,
    sig: &Signature,
    form: &Form,
    line: &Clause,
) -> Result<Option<Covering>, Memory>
    requires form { IsReady sig.now form.now }
    requires line { IsFit sig.now line.now }
    ensures { IfOk result (λ found. FoundInForm sig.now form.now line.now found) }
{
    match norm_within(alloc, form)? {
        Some(norm) => cover_open(alloc, sig, norm.get(), line),
        None => Ok(None),
    }
}

// The normal form of the formula, if its norm size is not over the limit.
fn norm_within(alloc: Global, form: &Form) -> Result<Option<Boxed<Form>>, Memory>
    ensures { IfOk result (λ found. MatchOption found (100000 < norm_size_of form.now) (HasNorm form.now)) }
{
    match norm(alloc, form) {
        Ok(made) => Ok(Some(Boxed::new(alloc, made)?)),
        Err(FormFault::Wide) => Ok(None),
        Err(FormFault::Memory) => Err(Memory),
    }
}

// A covering of what a path reaches in the normal form. A cheap test comes first.
fn cover_open(
    alloc: Global,
    sig: &Signature,
    norm: &Form,
    line: &Clause,
) -> Result<Option<Covering>, Memory>
    requires small { norm_size_of norm.now ≤ 100000 }
    requires norm { is_sorted sig.now [] norm.now ≡ true }
    requires line { IsFit sig.now line.now }
    ensures { IfOk result (λ found. FoundCover sig.now norm.now line.now found) }
{
    let is_open = may_reach(norm, alloc, line.lits.as_slice())?;
    if !is_open {
        return Ok(None);
    }
    let guessed = cover_at_once(alloc, sig, norm, line)?;
    if let Some(covering) = guessed {
        return Ok(Some(covering));
    }
    cover_norm(alloc, sig, norm, line)
}

// A covering of what the first path reaches in the normal form, if a guess finds one.
fn cover_at_once(
    alloc: Global,
    sig: &Signature,
    norm: &Form,
    line: &Clause,
) -> Result<Option<Covering>, Memory>
    requires small { norm_size_of norm.now ≤ 100000 }
    requires norm { is_sorted sig.now [] norm.now ≡ true }
    requires line { IsFit sig.now line.now }
    ensures { IfOk result (λ found.
        IfSome found (λ covering. ShowsCover sig.now norm.now line.now covering.path covering.subst)) }
{
    let path = first_path(norm, alloc)?;
    match clause_of_path(alloc, norm, &path)? {
        Some(clause) => match cover_guessed(alloc, sig, &clause, line)? {
            Some(subst) => Ok(Some(Covering { path, subst })),
            None => Ok(None),
        },
        None => Ok(None),
    }
}

// The path to the first member of each conjunction.
#[cycle(first_path)]
fn first_path(form: &Form, alloc: Global) -> Result<Path, Memory> {
    match form {
        Form::And(members) => {
            let members = members.as_slice();
            if members.is_empty() {
                return Ok(Path::Leaf);
            }
            let path = first_path(&members[0], alloc)?;
            Ok(Path::Pick(0, Boxed::new(alloc, path)?))
        }
        Form::Or(members) => Ok(Path::Each(first_paths(members.as_slice(), alloc)?)),
        Form::All(_, body) => {
            let path = first_path(body.get(), alloc)?;
            Ok(Path::Under(Boxed::new(alloc, path)?))
        }
        Form::Atom(_, _)
        | Form::Eq(_, _)
        | Form::Not(_)
        | Form::Imp(_, _)
        | Form::Iff(_, _)
        | Form::Ex(_, _) => Ok(Path::Leaf),
    }
}

// The same of each of the formulas.
#[cycle(first_path)]
fn first_paths(forms: &[Form], alloc: Global) -> Result<List<Path>, Memory> {
    let mut paths = List::new(alloc);
    for form in forms {
        paths.push(first_path(form, alloc)?)?;
    }
    Ok(paths)
}

// The same by a search.
fn cover_norm(
    alloc: Global,
    sig: &Signature,
    norm: &Form,
    line: &Clause,
) -> Result<Option<Covering>, Memory>
    requires small { norm_size_of norm.now ≤ 100000 }
    requires norm { is_sorted sig.now [] norm.now ≡ true }
    requires line { IsFit sig.now line.now }
    ensures { IfOk result (λ found. FoundCover sig.now norm.now line.now found) }
{
    let mut sorts = scope_of_clause(alloc, line)?;
    let rigid = line.sorts.len() as u32;
    let mut names = List::new(alloc);
    let goal = open(norm, alloc, line.lits.as_slice(), &mut names, &mut sorts)?;
    let scope = Scope { sorts, rigid };
    match solution_of(alloc, sig, &scope, &goal)? {
        Some(solution) => {
            let Solution { subst: _, choices } = solution;
            let reached = reached_by(alloc, norm, choices.as_slice())?;
            cover_reached(alloc, sig, line, reached)
        }
        None => Ok(None),
    }
}

// A covering of what was reached.
fn cover_reached(
    alloc: Global,
    sig: &Signature,
    line: &Clause,
    reached: Reached,
) -> Result<Option<Covering>, Memory>
    requires clause { IsFit sig.now reached.clause }
    requires line { IsFit sig.now line.now }
    ensures { IfOk result (λ found. SettlesReached sig.now line.now reached found) }
{
    match cover_clause(alloc, sig, &reached.clause, line)? {
        Some(subst) => {
            let Reached { path, clause: _ } = reached;
            Ok(Some(Covering { path, subst }))
        }
        None => Ok(None),
    }
}

/// A substitution that covers the clause by the line; None exactly where there is none.
pub fn cover_clause(
    alloc: Global,
    sig: &Signature,
    clause: &Clause,
    line: &Clause,
) -> Result<Option<Subst>, Memory>
    requires clause { IsFit sig.now clause.now }
    requires line { IsFit sig.now line.now }
    ensures { IfOk result (λ found.
        Settles sig.now line.now (scope_of clause.now)
        (CoversBy sig.now (scope_of clause.now) clause.now.lits line.now) found) }
{
    let joint = join_one(alloc, sig, line, clause)?;
    settle_covers(
        alloc,
        sig,
        &joint.scope,
        joint.left.as_slice(),
        line.lits.as_slice(),
    )
}

// A substitution that covers the clause by the line, if a guess finds one.
fn cover_guessed(
    alloc: Global,
    sig: &Signature,
    clause: &Clause,
    line: &Clause,
) -> Result<Option<Subst>, Memory>
    requires clause { IsFit sig.now clause.now }
    requires line { IsFit sig.now line.now }
    ensures { IfOk result (λ found.
        IfSome found (λ images.
        Settles sig.now line.now (scope_of clause.now) (CoversBy sig.now (scope_of clause.now) clause.now.lits line.now)
        (Some images))) }
{
    let joint = join_one(alloc, sig, line, clause)?;
    settle_narrowed(
        alloc,
        sig,
        &joint.scope,
        joint.left.as_slice(),
        line.lits.as_slice(),
    )
}
