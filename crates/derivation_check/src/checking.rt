// A derivation is checked.
ghost use Rattle.std.specs.Prelude.{◌≡◌, ◌≤◌, length, IfOk, IfErr, OnErr};
ghost use Rattle.std.specs.List.{All};
ghost use Rattle.tptp_base.specs.Count.{Rose};
ghost use Rattle.sort_check.specs.Sorting.{AreDeclared, Extends, IsSentence};
ghost use Rattle.tstp_graph.specs.Graphs.{IsOrdered};
ghost use Rattle.kernel.specs.Statements.{Statements};
ghost use Rattle.verifier.specs.Closing.{HasFalseLine};
ghost use Rattle.verifier.specs.Faults.{HasCause, HasRunCause};
ghost use Rattle.verifier.specs.Lines.{LinesStand};
ghost use Rattle.verifier.specs.Logged.{LeadTo, LogsSome};
ghost use Rattle.verifier.specs.Report.{AreAccepted, HasFalse};
ghost use Rattle.derivation_check.specs.Endings.{IsVerdict};
ghost use Rattle.derivation_check.specs.Cases.{asked_of, claim_by};
ghost use Rattle.derivation_check.specs.Logs.{ChecksWithLog, StopsWithLog, TakesSomeOfLog};
ghost use Rattle.derivation_check.specs.code.Logs.{Closed};

use crate::claiming::claim_on;
use crate::counting::{norm_count, resolution_count};
use crate::ending::verdict;
use crate::reporting::{is_verified, report_of};
use crate::running::run_derivation;
use derivation_text::Derivation;
use fof_terms::Signature;
use proof_check::Theory;
use std::alloc::{AllocError, Global};
use tptp_base::{Sink, Text};
use verifier::{LineAnswer, Outcome, RunFault, Verdict, close_log};

/// What is asked of a derivation.
#[derive(Clone, Copy)]
pub struct Asked<'a> {
    /// The problem, as it was named.
    pub problem: &'a [u8],
    /// The whole output of the prover.
    pub output: &'a [u8],
    /// For each given formula whether its role is conjecture or negated_conjecture.
    pub marks: &'a [bool],
    /// Whether the problem has a conjecture.
    pub has_conjecture: bool,
    /// How many clauses a search keeps at most.
    pub limit: u32,
}

/// What is printed of a derivation, whether all is verified, and how many lines there are, and are accepted by norm and
/// by resolution.
#[derive(Drop)]
pub struct Report {
    pub verified: bool,
    pub text: Text,
    pub lines: usize,
    pub norms: usize,
    pub resolutions: usize,
}

/// Checks a derivation in the theory of its given formulas: writes the log, with a last entry where all is verified,
/// and gives the report. The signature is that of the theory, with what the derivation brings.
///
/// # Errors
///
/// `Room` at the first line in the order of checking that is not skipped and for which the symbols of the theory leave no
/// room: the log has then taken its first line, the declarations, and the entries of the lines before it. `Sink` where
/// the log failed, and `Memory`: the log has then taken a prefix of the text of legal entries, or nothing. Such entries
/// lead to the theory (`leads`).
pub fn check_derivation<K: Sink>(
    alloc: Global,
    asked: &Asked<'_>,
    derivation: &Derivation,
    signature: &Signature,
    theory: &mut Theory,
    log: &mut K,
) -> Result<Report, RunFault>
    requires extends { Extends theory.old.vocabulary signature.now }
    requires declared { AreDeclared signature.now }
    requires each_form { length derivation.now.forms ≡ length derivation.now.graph.nodes }
    requires each_name { length derivation.now.names ≡ length derivation.now.graph.nodes }
    requires ordered { IsOrdered derivation.now.graph.nodes derivation.now.graph }
    requires given { All (IsSentence theory.old.vocabulary) theory.old.formulas }
    requires lines { All (IsSentence signature.now) derivation.now.forms }
    ensures checks { IfOk result (λ report.
        ChecksWithLog (asked_of asked.now) theory.old derivation.now signature.now report (K.taken log.old)
        (K.taken log.new)) }
    ensures log { TakesSomeOfLog theory.old (K.taken log.old) (K.taken log.new) }
    ensures leads { LeadTo theory.old theory.new }
    ensures cause { IfErr result (λ fault. HasRunCause fault (Rose (K.faults log.old) (K.faults log.new))
        (StopsWithLog (asked_of asked.now) theory.old derivation.now signature.now (K.taken log.old)
        (K.taken log.new))) }
    ensures more_faults { K.faults log.old ≤ K.faults log.new }
{
    let outcome = run_derivation(alloc, derivation, signature, asked.limit, theory, log)?;
    close(alloc, asked, derivation, &outcome, log)
}

// The report on lines that are run, and the end of the log.
fn close<K: Sink>(
    alloc: Global,
    asked: &Asked<'_>,
    derivation: &Derivation,
    outcome: &Outcome,
    log: &mut K,
) -> Result<Report, RunFault>
    requires count { length derivation.now.names ≡ length outcome.now.answers }
    requires found { AreAccepted outcome.now.answers → HasFalse derivation.now.forms
        → HasFalseLine derivation.now.forms outcome.now.numbers }
    ensures closed { IfOk result (λ report.
        Closed (asked_of asked.now) derivation.now outcome.now.answers outcome.now.numbers report (K.taken log.old)
        (K.taken log.new)) }
    ensures cut { (t : Statements) → LinesStand t derivation.now.forms outcome.now.numbers
        → OnErr result (LogsSome t (K.taken log.old) (K.taken log.new)) }
    ensures cause { IfErr result (λ fault. HasCause fault (Rose (K.faults log.old) (K.faults log.new))) }
    ensures more_faults { K.faults log.old ≤ K.faults log.new }
{
    let answers = outcome.answers.as_slice();
    let ending = ending_of(alloc, asked, derivation, answers)?;
    let text = report_of(alloc, derivation.names.as_slice(), answers, &ending)?;
    let forms = derivation.forms.as_slice();
    close_log(alloc, &ending, forms, outcome.numbers.as_slice(), log)?;
    Ok(Report {
        verified: is_verified(&ending),
        text,
        lines: answers.len(),
        norms: norm_count(answers),
        resolutions: resolution_count(answers),
    })
}

// How the derivation ends.
fn ending_of(
    alloc: Global,
    asked: &Asked<'_>,
    derivation: &Derivation,
    answers: &[LineAnswer],
) -> Result<Verdict, AllocError>
    ensures { IfOk result (λ ending.
        IsVerdict (claim_by
        (asked_of asked.now) answers.now) asked.now.problem.now derivation.now.forms answers.now ending) }
{
    let claim = claim_on(alloc, asked, answers)?;
    verdict(
        alloc,
        &claim,
        asked.problem,
        derivation.forms.as_slice(),
        answers,
    )
}
