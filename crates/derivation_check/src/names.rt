// The printed names of rules and reasons.
ghost use Rattle.std.specs.Prelude.{◌≡◌};
ghost use Rattle.derivation_check.specs.Report;

use elaborate::{Reason, Rule};

/// The printed name of a rule.
pub fn rule_name(rule: Rule) -> &'static [u8]
    ensures { result.now ≡ Report.rule_name rule }
{
    match rule {
        Rule::Norm => b"norm",
        Rule::Cover => b"cover",
        Rule::Tautology => b"tautology",
        Rule::Resolution => b"resolution",
        Rule::Paramodulation => b"paramodulation",
        Rule::EqFactor => b"eqfactor",
        Rule::Rewrite => b"rewrite",
        Rule::Split => b"split",
        Rule::Skolem => b"skolem",
        Rule::Definition => b"definition",
        Rule::Choice => b"choice",
        Rule::Search => b"search",
        Rule::Sat => b"sat",
    }
}

/// The printed name of a reason.
pub fn reason_name(reason: Reason) -> &'static [u8]
    ensures { result.now ≡ Report.reason_name reason }
{
    match reason {
        Reason::Dry => b"dry",
        Reason::Full => b"full",
        Reason::Heavy => b"heavy",
        Reason::Wide => b"wide",
        Reason::Leaf => b"leaf",
    }
}
