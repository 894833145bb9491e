// The check of a derivation.
ghost use Rattle.std.specs.Prelude.{◌≡◌, ◌≤◌, length, IfOk, IfErr};
ghost use Rattle.std.specs.List.{All};
ghost use Rattle.tptp_base.specs.Count.{Rose};
ghost use Rattle.sort_check.specs.Sorting.{AreDeclared, Extends, IsSentence};
ghost use Rattle.tstp_graph.specs.Graphs.{IsOrdered};
ghost use Rattle.verifier.specs.Faults.{HasRunCause};
ghost use Rattle.verifier.specs.Logged.{LeadTo};
ghost use Rattle.derivation_check.specs.Cases.{asked_of};
ghost use Rattle.derivation_check.specs.Logs.{ChecksWithLog, StopsWithLog, TakesSomeOfLog};

use crate::{Control, Probe};
use derivation_check::{Asked, Report, check_derivation};
use derivation_text::Derivation;
use fof_terms::Signature;
use proof_check::Theory;
use std::alloc::Global;
use tptp_base::Sink;
use verifier::RunFault;

/// Checks derivations.
pub trait Checking {
    /// Checks a derivation in the theory of its given formulas: writes the log, with a last entry where all is
    /// verified, and gives the report.
    fn check_derivation<K: Sink>(
        alloc: Global,
        asked: &Asked<'_>,
        derivation: &Derivation,
        signature: &Signature,
        theory: &mut Theory,
        log: &mut K,
    ) -> Result<Report, RunFault>
        requires extends { Extends theory.old.vocabulary signature.now }
        requires declared { AreDeclared signature.now }
        requires each_form { length derivation.now.forms ≡ length derivation.now.graph.nodes }
        requires each_name { length derivation.now.names ≡ length derivation.now.graph.nodes }
        requires ordered { IsOrdered derivation.now.graph.nodes derivation.now.graph }
        requires given { All (IsSentence theory.old.vocabulary) theory.old.formulas }
        requires lines { All (IsSentence signature.now) derivation.now.forms }
        ensures checks { IfOk result (λ report.
            ChecksWithLog (asked_of asked.now) theory.old derivation.now signature.now report (K.taken log.old)
            (K.taken log.new)) }
        ensures log { TakesSomeOfLog theory.old (K.taken log.old) (K.taken log.new) }
        ensures leads { LeadTo theory.old theory.new }
        ensures cause { IfErr result (λ fault. HasRunCause fault (Rose (K.faults log.old) (K.faults log.new))
            (StopsWithLog (asked_of asked.now) theory.old derivation.now signature.now (K.taken log.old)
            (K.taken log.new))) }
        ensures more_faults { K.faults log.old ≤ K.faults log.new };
}

impl Checking for Probe {
    fn check_derivation<K: Sink>(
        alloc: Global,
        asked: &Asked<'_>,
        derivation: &Derivation,
        signature: &Signature,
        theory: &mut Theory,
        log: &mut K,
    ) -> Result<Report, RunFault> {
        check_derivation(alloc, asked, derivation, signature, theory, log)
    }
}

impl Checking for Control {
    fn check_derivation<K: Sink>(
        alloc: Global,
        asked: &Asked<'_>,
        derivation: &Derivation,
        signature: &Signature,
        theory: &mut Theory,
        log: &mut K,
    ) -> Result<Report, RunFault> {
        let same = Asked {
            problem: asked.problem,
            output: asked.output,
            ..*asked
        };
        match check_derivation(alloc, &same, derivation, signature, theory, log) {
            Ok(report) => Ok(Report {
                verified: report.verified,
                text: report.text,
                lines: report.lines,
                norms: report.norms,
                resolutions: report.resolutions,
            }),
            Err(RunFault::Sink) => Err(RunFault::Sink),
            Err(RunFault::Memory) => Err(RunFault::Memory),
            Err(RunFault::Room(place)) => Err(RunFault::Room(place)),
        }
    }
}
