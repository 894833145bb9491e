// What is answered of the lines of a derivation, and of the whole.
ghost use Rattle.std.specs.Prelude.{◌≡◌};
ghost use Rattle.verifier.specs.Report;

use elaborate::{Reason, Rule};
use tptp_base::{List, Text};

/// What is answered of a line.
#[derive(Drop)]
pub enum LineAnswer {
    /// It follows by the rule, from the formulas of these numbers in the theory: a step from its parents, a leaf from
    /// the given formula that gives it.
    Accepted { rule: Rule, cites: List<u64> },
    /// It was not shown to follow.
    Unverified(Reason),
    /// One of its parents is not accepted.
    Skipped,
}

impl LineAnswer {
    /// Whether the line was not shown to follow.
    pub fn is_unverified(&self) -> bool
        ensures { result ≡ Report.is_unverified self.now }
    {
        match self {
            LineAnswer::Unverified(_) => true,
            LineAnswer::Accepted { .. } | LineAnswer::Skipped => false,
        }
    }

    /// Whether a parent of the line is not accepted.
    pub fn is_skipped(&self) -> bool
        ensures { result ≡ Report.is_skipped self.now }
    {
        match self {
            LineAnswer::Skipped => true,
            LineAnswer::Accepted { .. } | LineAnswer::Unverified(_) => false,
        }
    }
}

/// How a derivation ends.
#[derive(Drop)]
pub enum Verdict {
    /// Some line is not accepted: how many are unverified, how many are skipped, and how many lines there are.
    Failed(u64, u64, u64),
    /// No line is falsehood.
    NoFalse,
    /// The claimed status does not fit the derivation.
    BadClaim(Text),
    /// All is verified: the status, the problem as it was named, and how many lines there are.
    Verified(Text, Text, u64),
}
