//! The search at all places with all equations, which paramodulation and rewriting share.
ghost use Rattle.std.specs.Prelude.{◌≡◌, false, IfOk};
ghost use Rattle.std.specs.Option.{MatchOption};
ghost use Rattle.clause_rules.specs.Settled.{IsFit};
ghost use Rattle.clause_rules.specs.declared.just.Just.{Just as Justified};
ghost use Rattle.rule_steps.specs.code.SiteSearch.{FoundAmong, FoundWith};
ghost use Rattle.rule_steps.specs.code.SlotFits.{AllFit};
ghost use Rattle.rule_steps.specs.declared.search.Search.{Search as Sought};
ghost use Rattle.rule_steps.specs.declared.sites.Reading.{Reading as Read};
ghost use Rattle.rule_steps.specs.declared.sites.Site.{Site as Spotted};

use crate::search::Search;
use crate::sites::{Reading, Site};
use clause_rules::Just;
use tptp_base::Memory;

/// A rule that changes a clause at a place by an equation.
pub trait SiteRule {
    /// The rule does not give the line at this place with this equation.
    ghost Never: { Sought → Spotted → Read → Type 0 };

    /// The justification shows that the rule gives the line.
    ghost Shows: { Sought → Justified → Type 0 };

    /// Whether the rule may give the line at this place.
    fn may_change(search: &Search<'_>, site: &Site) -> Result<bool, Memory>
        requires clauses { AllFit search.now.sig.now search.now.clauses.now }
        ensures { IfOk result (λ answer. answer ≡ false → (reading : Read) → Never search.now site.now reading) };

    /// A justification at this place with this equation. None exactly where there is none.
    fn try_at(search: &Search<'_>, site: &Site, reading: &Reading) -> Result<Option<Just>, Memory>
        requires clauses { AllFit search.now.sig.now search.now.clauses.now }
        requires line { IsFit search.now.sig.now search.now.line.now }
        ensures { IfOk result (λ found.
            MatchOption found (Never search.now site.now reading.now) (Shows search.now)) };
}

/// A justification at one of the places with one of the equations.
pub fn at_sites<R: SiteRule>(
    search: &Search<'_>,
    sites: &[Site],
    readings: &[Reading],
) -> Result<Option<Just>, Memory>
    requires clauses { AllFit search.now.sig.now search.now.clauses.now }
    requires line { IsFit search.now.sig.now search.now.line.now }
    ensures { IfOk result (λ found.
        FoundAmong (R.Never search.now) (R.Shows search.now) sites.now readings.now found) }
{
    for m in 0..sites.len() {
        let found = at_site::<R>(search, &sites[m], readings)?;
        if let Some(just) = found {
            return Ok(Some(just));
        }
    }
    Ok(None)
}

// A justification at this place. A test of the place comes first.
fn at_site<R: SiteRule>(
    search: &Search<'_>,
    site: &Site,
    readings: &[Reading],
) -> Result<Option<Just>, Memory>
    requires clauses { AllFit search.now.sig.now search.now.clauses.now }
    requires line { IsFit search.now.sig.now search.now.line.now }
    ensures { IfOk result (λ found.
        FoundWith (R.Never search.now) (R.Shows search.now) readings.now site.now found) }
{
    let is_open = R::may_change(search, site)?;
    if !is_open {
        return Ok(None);
    }
    for k in 0..readings.len() {
        let found = R::try_at(search, site, &readings[k])?;
        if let Some(just) = found {
            return Ok(Some(just));
        }
    }
    Ok(None)
}
