ghost use Rattle.std.specs.Prelude.{◌≡◌, ◌≤◌, ◌∷◌, [], false, length, Some, IfOk};
ghost use Rattle.std.specs.Option.{MatchOption, option_map};
ghost use Rattle.clause_form.specs.Covers.{AreSorted, CoversBy};
ghost use Rattle.clause_rules.specs.declared.just.Just.TheVariants.{Rewrite};
ghost use Rattle.clause_rules.specs.Answers.{IsAnswer, rewrite};
ghost use Rattle.clause_rules.specs.RewriteRule.{StandsIn};
ghost use Rattle.rule_steps.specs.code.RewriteSearch.{NeverRewritten, NoRewritingAt};
ghost use Rattle.rule_steps.specs.code.RewriteSearch.{SettlesRewriting, ShowsRewriting, TriedRewriting};
ghost use Rattle.rule_steps.specs.code.AmongClauses.{AnswersBy};
ghost use Rattle.rule_steps.specs.code.SlotFits.{AllFit};
ghost use Rattle.clause_rules.specs.Settled.{IsFit, Settles};
ghost use Rattle.clause_rules.specs.Steps.{AreReady, IsReady, scope_of_both};

use crate::clause_rule::{ClauseRule, step_by};
use crate::paramodulation_rule::clause_in;
use crate::search::Search;
use crate::site_rule::{SiteRule, at_sites};
use crate::sites::{Reading, Site, equation_in, readings_of, sites_of, spot_in};
use clause_form::{Clause, Lit, Parent};
use clause_rules::{Just, apart, join_one, replace_in_lits, scope_of_clause};
use fof_terms::{Form, Signature, Term};
use std::alloc::Global;
use substitution_search::{may_all_be_covered, may_meet, settle_covers};
use tptp_base::{List, Memory};
use unify_terms::{Pair, Scope, Subst, apply, unify};

/// A term that was rewritten, the substitution that takes the equation's left side to it, and one that covers.
#[derive(Drop)]
pub struct Rewriting {
    pub target: Term,
    pub by_subst: Subst,
    pub subst: Subst,
}

/// The rule, for what all rules of its kind share.
pub struct Rewritings;

impl SiteRule for Rewritings {
    ghost use Rattle.rule_steps.specs.code.RewriteSearch.{NoRewritingAt, ShowsRewriting};

    ghost Never = { λ search site reading.
        NoRewritingAt search.sig.now search.clauses.now search.line.now site reading };

    ghost Shows = { λ search just. ShowsRewriting search.sig.now search.clauses.now search.line.now just };

    fn may_change(_search: &Search<'_>, _site: &Site) -> Result<bool, Memory> {
        Ok(true)
    }

    fn try_at(search: &Search<'_>, site: &Site, reading: &Reading) -> Result<Option<Just>, Memory> {
        rewriting_at(search, site, reading)
    }
}

impl ClauseRule for Rewritings {
    ghost use Rattle.std.specs.Prelude.{refl};
    ghost use Rattle.clause_rules.specs.Answers.{rewrite};

    ghost rule = { rewrite };

    fn among(search: &Search<'_>) -> Result<Option<Just>, Memory> {
        rewrite_among(search)
    }

    ghost clauses_alone = { refl };
}

/// A justification by the rule `rewrite`: an instance of the left side of a parent that is one positive equation, as it
/// is read, stands in another parent, and each occurrence gives way to the right side. None exactly where there is
/// none.
pub fn rewrite_step(
    alloc: Global,
    sig: &Signature,
    parents: &[Parent],
    line: &Form,
) -> Result<Option<Just>, Memory>
    requires parents { AreReady sig.now parents.now }
    requires line { IsReady sig.now line.now }
    ensures { IfOk result (λ answer. IsAnswer sig.now parents.now line.now rewrite answer) }
{
    step_by::<Rewritings>(alloc, sig, parents, line)
}

/// The same among the clauses that the parents are.
pub fn rewrite_among(search: &Search<'_>) -> Result<Option<Just>, Memory>
    requires clauses { AllFit search.now.sig.now search.now.clauses.now }
    requires line { IsFit search.now.sig.now search.now.line.now }
    ensures { IfOk result (λ found. AnswersBy rewrite search.now found) }
{
    let readings = readings_of(search.alloc, search.clauses)?;
    if readings.is_empty() {
        return Ok(None);
    }
    let sites = sites_of(search.alloc, search.clauses)?;
    at_sites::<Rewritings>(search, sites.as_slice(), readings.as_slice())
}

// A justification at this place with this equation.
fn rewriting_at(search: &Search<'_>, site: &Site, reading: &Reading) -> Result<Option<Just>, Memory>
    requires clauses { AllFit search.now.sig.now search.now.clauses.now }
    requires line { IsFit search.now.sig.now search.now.line.now }
    ensures { IfOk result (λ found.
        MatchOption found
        (NoRewritingAt search.now.sig.now search.now.clauses.now search.now.line.now site.now reading.now)
        (ShowsRewriting search.now.sig.now search.now.clauses.now search.now.line.now)) }
{
    let found = with_reading(search, site, reading)?;
    match found {
        Some(rewriting) => justified(site, reading, rewriting),
        None => Ok(None),
    }
}

// The justification at this place with this equation.
fn justified(site: &Site, reading: &Reading, rewriting: Rewriting) -> Result<Option<Just>, Memory>
    ensures { IfOk result (λ just. just
        ≡ Some (Rewrite site.now.clause reading.now.clause rewriting.target reading.now.flipped rewriting.by_subst
        rewriting.subst)) }
{
    let Rewriting {
        target,
        by_subst,
        subst,
    } = rewriting;
    Ok(Some(Just::Rewrite {
        into: site.clause,
        by: reading.clause,
        target,
        flipped: reading.flipped,
        by_subst,
        subst,
    }))
}

// A rewriting at this place with this equation.
fn with_reading(
    search: &Search<'_>,
    site: &Site,
    reading: &Reading,
) -> Result<Option<Rewriting>, Memory>
    requires clauses { AllFit search.now.sig.now search.now.clauses.now }
    requires line { IsFit search.now.sig.now search.now.line.now }
    ensures { IfOk result (λ found.
        TriedRewriting search.now.sig.now search.now.clauses.now search.now.line.now site.now reading.now found) }
{
    match clause_in(search.clauses, site.clause) {
        Some(into) => match clause_in(search.clauses, reading.clause) {
            Some(by) => match spot_in(into.lits.as_slice(), site.lit, site.at.as_slice()) {
                Some(spot) => of_term(search, into, by, spot.term, reading.flipped),
                None => Ok(None),
            },
            None => Ok(None),
        },
        None => Ok(None),
    }
}

// A rewriting of this term with the equation that a clause is, read so: cheap tests of the two terms and of the
// literals come first.
fn of_term(
    search: &Search<'_>,
    into: &Clause,
    by: &Clause,
    target: &Term,
    flipped: bool,
) -> Result<Option<Rewriting>, Memory>
    requires into { IsFit search.now.sig.now into.now }
    requires by { IsFit search.now.sig.now by.now }
    requires line { IsFit search.now.sig.now search.now.line.now }
    requires stands { StandsIn target.now into.now.lits }
    ensures { IfOk result (λ found.
        SettlesRewriting search.now.sig.now into.now by.now search.now.line.now target.now flipped found) }
{
    if by.lits.len() != 1 {
        return Ok(None);
    }
    match equation_in(by.lits.as_slice(), 0, flipped) {
        Some(sides) => {
            if !may_meet(sides.left, target, true) {
                return Ok(None);
            }
            let is_open = may_be_rewritten(search.alloc, into, search.line, target)?;
            if !is_open {
                return Ok(None);
            }
            of_match(search, into, by, target, flipped)
        }
        None => Ok(None),
    }
}

// Whether the line may cover the clause with some term in place of each occurrence of the target.
fn may_be_rewritten(
    alloc: Global,
    into: &Clause,
    line: &Clause,
    target: &Term,
) -> Result<bool, Memory>
    requires few { length into.now.sorts ≤ 1000000000 }
    ensures { IfOk result (λ answer. answer ≡ false → NeverRewritten line.now into.now target.now) }
{
    let hole = Term::Var(into.sorts.len() as u32);
    let open = replace_in_lits(alloc, into.lits.as_slice(), target, &hole)?;
    Ok(may_all_be_covered(line.lits.as_slice(), open.as_slice()))
}

// The same over one list of variables with the equation's: the left side is matched with the term.
fn of_match(
    search: &Search<'_>,
    into: &Clause,
    by: &Clause,
    target: &Term,
    flipped: bool,
) -> Result<Option<Rewriting>, Memory>
    requires into { IsFit search.now.sig.now into.now }
    requires by { IsFit search.now.sig.now by.now }
    requires line { IsFit search.now.sig.now search.now.line.now }
    requires stands { StandsIn target.now into.now.lits }
    requires single { length by.now.lits ≡ 1 }
    ensures { IfOk result (λ found.
        SettlesRewriting search.now.sig.now into.now by.now search.now.line.now target.now flipped found) }
{
    let joint = join_one(search.alloc, search.sig, into, by)?;
    match equation_in(joint.left.as_slice(), 0, flipped) {
        Some(sides) => {
            let pairs = one_match(search.alloc, sides.left, target)?;
            match unify(search.alloc, search.sig, &joint.scope, pairs.as_slice())? {
                Some(by_subst) => {
                    let new = apply(search.alloc, &by_subst, sides.right)?;
                    let lits = replace_in_lits(search.alloc, into.lits.as_slice(), target, &new)?;
                    let found = cover_lits(search, into, by, lits.as_slice())?;
                    rewriting_of(search.alloc, target, by_subst, found)
                }
                None => Ok(None),
            }
        }
        None => Ok(None),
    }
}

// The two terms, which are to be equal.
fn one_match(alloc: Global, left: &Term, right: &Term) -> Result<List<Pair>, Memory>
    ensures { IfOk result (λ pairs. pairs ≡ record { left = left.now; right = right.now } ∷ []) }
{
    let mut pairs = List::new(alloc);
    let left = left.copy(alloc)?;
    let right = right.copy(alloc)?;
    pairs.push(Pair { left, right })?;
    Ok(pairs)
}

// The rewriting, if a substitution that covers was found.
fn rewriting_of(
    alloc: Global,
    target: &Term,
    by_subst: Subst,
    found: Option<Subst>,
) -> Result<Option<Rewriting>, Memory>
    ensures { IfOk result (λ made. made
        ≡ option_map (λ s. record { target = target.now; by_subst = by_subst; subst = s }) found) }
{
    match found {
        Some(subst) => {
            let target = target.copy(alloc)?;
            Ok(Some(Rewriting {
                target,
                by_subst,
                subst,
            }))
        }
        None => Ok(None),
    }
}

// A substitution that covers literals over the variables of two clauses by the line.
fn cover_lits(
    search: &Search<'_>,
    into: &Clause,
    by: &Clause,
    lits: &[Lit],
) -> Result<Option<Subst>, Memory>
    requires into { length into.now.sorts ≤ 1000000000 }
    requires by { length by.now.sorts ≤ 1000000000 }
    requires line { IsFit search.now.sig.now search.now.line.now }
    requires lits { AreSorted search.now.sig.now (scope_of_both into.now by.now) lits.now }
    ensures { IfOk result (λ found.
        Settles search.now.sig.now search.now.line.now (scope_of_both into.now by.now)
        (CoversBy search.now.sig.now (scope_of_both into.now by.now) lits.now search.now.line.now) found) }
{
    let line = search.line;
    let rigid = line.sorts.len() as u32;
    let mut sorts = scope_of_clause(search.alloc, line)?;
    sorts.append(scope_of_clause(search.alloc, into)?)?;
    sorts.append(scope_of_clause(search.alloc, by)?)?;
    let scope = Scope { sorts, rigid };
    let moved = apart(search.alloc, lits, rigid)?;
    settle_covers(
        search.alloc,
        search.sig,
        &scope,
        moved.as_slice(),
        line.lits.as_slice(),
    )
}
