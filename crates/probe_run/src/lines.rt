// The run of a derivation's lines, and the first and last entries of its log.
ghost use Rattle.std.specs.Prelude.{◌≡◌, ◌≤◌, length, IfOk, IfErr, OnOk, OnErr};
ghost use Rattle.std.specs.List.{All};
ghost use Rattle.tptp_base.specs.Count.{Rose};
ghost use Rattle.tptp_base.specs.Sink.{Takes};
ghost use Rattle.tstp_graph.specs.Graphs.{IsOrdered};
ghost use Rattle.kernel.specs.Entries.{Admits};
ghost use Rattle.kernel.specs.Statements.{Statements};
ghost use Rattle.proof_log.specs.Entries.{HaveNumbersInRange};
ghost use Rattle.clause_rules.specs.Steps.{IsReady};
ghost use Rattle.verifier.specs.Closing.{ClosesLog, HasFalseLine, IsVerified};
ghost use Rattle.verifier.specs.Declarations;
ghost use Rattle.verifier.specs.Faults.{HasCause, HasRunCause};
ghost use Rattle.verifier.specs.Lines.{LinesStand};
ghost use Rattle.verifier.specs.Logged.{CanAdmit, LeadTo, LogsSome, LogsRun, LogsStopped, entries_text};

use crate::{Control, Probe};
use fof_terms::{Form, Signature};
use proof_check::Theory;
use std::alloc::Global;
use tptp_base::Sink;
use tstp_graph::Graph;
use verifier::{Outcome, RunFault, Verdict, close_log, declare, run_lines};

/// Runs lines and logs their entries.
pub trait Running {
    /// Runs the lines of a derivation in the theory of its given formulas, in the order of its graph, and answers each
    /// in the order of the text.
    fn run_lines<K: Sink>(
        alloc: Global,
        forms: &[Form],
        graph: &Graph,
        limit: u32,
        theory: &mut Theory,
        log: &mut K,
    ) -> Result<Outcome, RunFault>
        requires same { length forms.now ≡ length graph.now.nodes }
        requires ordered { IsOrdered graph.now.nodes graph.now }
        requires given { All (IsReady theory.old.vocabulary) theory.old.formulas }
        requires lines { All (IsReady theory.old.vocabulary) forms.now }
        ensures ran { IfOk result (λ ran.
            LogsRun theory.old
            (record {
              given = theory.old.formulas;
              nodes = graph.now.nodes;
              forms =
                  forms.now;
              limit = limit;
            }) graph.now.order ran.answers ran.numbers theory.new (K.taken log.old) (K.taken log.new)) }
        ensures leads { LeadTo theory.old theory.new }
        ensures cut { OnErr result (LogsSome theory.old (K.taken log.old) (K.taken log.new)) }
        ensures cause { IfErr result (λ fault. HasRunCause fault (Rose (K.faults log.old) (K.faults log.new)) (λ place.
            LogsStopped theory.old
            (record {
              given = theory.old.formulas;
              nodes = graph.now.nodes;
              forms =
                  forms.now;
              limit = limit;
            }) graph.now.order place theory.new (K.taken log.old) (K.taken log.new))) }
        ensures more_faults { K.faults log.old ≤ K.faults log.new };

    /// Declares what the signature has and the theory lacks, and logs the declarations.
    fn declare<K: Sink>(
        alloc: Global,
        signature: &Signature,
        theory: &mut Theory,
        log: &mut K,
    ) -> Result<(), RunFault>
        requires { CanAdmit theory.old (Declarations.declarations theory.old.vocabulary signature.now) }
        ensures admits { OnOk result
            (Admits theory.old (Declarations.declarations theory.old.vocabulary signature.now) theory.new) }
        ensures logged { OnOk result
            (Takes (K.taken log.old) (K.taken log.new)
            (entries_text (Declarations.declarations theory.old.vocabulary signature.now))) }
        ensures in_range { OnOk result
            (HaveNumbersInRange (Declarations.declarations theory.old.vocabulary signature.now)) }
        ensures leads { LeadTo theory.old theory.new }
        ensures cut { OnErr result (LogsSome theory.old (K.taken log.old) (K.taken log.new)) }
        ensures cause { IfErr result (λ fault. HasCause fault (Rose (K.faults log.old) (K.faults log.new))) }
        ensures more_faults { K.faults log.old ≤ K.faults log.new };

    /// Writes the last entry of a log: where all is verified, a lemma that cites the last line that is
    /// falsehood, and else nothing.
    fn close_log<K: Sink>(
        alloc: Global,
        verdict: &Verdict,
        forms: &[Form],
        numbers: &[Option<u64>],
        log: &mut K,
    ) -> Result<(), RunFault>
        requires { IsVerified verdict.now → HasFalseLine forms.now numbers.now }
        ensures closes { OnOk result (ClosesLog verdict.now forms.now numbers.now (K.taken log.old) (K.taken log.new)) }
        ensures cut { (t : Statements) → LinesStand t forms.now numbers.now
            → OnErr result (LogsSome t (K.taken log.old) (K.taken log.new)) }
        ensures cause { IfErr result (λ fault. HasCause fault (Rose (K.faults log.old) (K.faults log.new))) }
        ensures more_faults { K.faults log.old ≤ K.faults log.new };
}

impl Running for Probe {
    fn run_lines<K: Sink>(
        alloc: Global,
        forms: &[Form],
        graph: &Graph,
        limit: u32,
        theory: &mut Theory,
        log: &mut K,
    ) -> Result<Outcome, RunFault> {
        run_lines(alloc, forms, graph, limit, theory, log)
    }

    fn declare<K: Sink>(
        alloc: Global,
        signature: &Signature,
        theory: &mut Theory,
        log: &mut K,
    ) -> Result<(), RunFault> {
        declare(alloc, signature, theory, log)
    }

    fn close_log<K: Sink>(
        alloc: Global,
        verdict: &Verdict,
        forms: &[Form],
        numbers: &[Option<u64>],
        log: &mut K,
    ) -> Result<(), RunFault> {
        close_log(alloc, verdict, forms, numbers, log)
    }
}

impl Running for Control {
    fn run_lines<K: Sink>(
        alloc: Global,
        forms: &[Form],
        graph: &Graph,
        limit: u32,
        theory: &mut Theory,
        log: &mut K,
    ) -> Result<Outcome, RunFault> {
        match run_lines(alloc, forms, graph, limit, theory, log) {
            Ok(Outcome { answers, numbers }) => Ok(Outcome { answers, numbers }),
            Err(RunFault::Sink) => Err(RunFault::Sink),
            Err(RunFault::Memory) => Err(RunFault::Memory),
            Err(RunFault::Room(place)) => Err(RunFault::Room(place)),
        }
    }

    fn declare<K: Sink>(
        alloc: Global,
        signature: &Signature,
        theory: &mut Theory,
        log: &mut K,
    ) -> Result<(), RunFault> {
        match declare(alloc, signature, theory, log) {
            Ok(()) => Ok(()),
            Err(RunFault::Sink) => Err(RunFault::Sink),
            Err(RunFault::Memory) => Err(RunFault::Memory),
            Err(RunFault::Room(_)) => unreachable!(),
        }
    }

    fn close_log<K: Sink>(
        alloc: Global,
        verdict: &Verdict,
        forms: &[Form],
        numbers: &[Option<u64>],
        log: &mut K,
    ) -> Result<(), RunFault> {
        match verdict {
            Verdict::Verified(_, _, _) => close_log(alloc, verdict, forms, numbers, log),
            Verdict::Failed(_, _, _) | Verdict::NoFalse | Verdict::BadClaim(_) => Ok(()),
        }
    }
}
