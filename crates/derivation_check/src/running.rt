// The lines of a derivation are run from the given formulas.
ghost use Rattle.std.specs.Prelude.{◌≡◌, ◌≤◌, ◌++◌, [], length, IfOk, IfErr, OnOk, OnErr};
ghost use Rattle.std.specs.List.{All};
ghost use Rattle.tptp_base.specs.Count.{Rose};
ghost use Rattle.tptp_base.specs.Sink.{Takes};
ghost use Rattle.sort_check.specs.Sorting.{AreDeclared, Extends, IsSentence};
ghost use Rattle.kernel.specs.Entries.{Admits};
ghost use Rattle.tstp_graph.specs.Graphs.{IsOrdered};
ghost use Rattle.proof_log.specs.Entries.{HaveNumbersInRange, log_text};
ghost use Rattle.verifier.specs.Declarations.{declarations};
ghost use Rattle.verifier.specs.Faults.{HasCause, HasRunCause};
ghost use Rattle.verifier.specs.Logged.{LeadTo};
ghost use Rattle.derivation_check.specs.Cases.{widened};
ghost use Rattle.derivation_check.specs.code.Logs.{LogsRuns, StopsRun};
ghost use Rattle.derivation_check.specs.Logs.{TakesSomeOfLog};

use derivation_text::Derivation;
use fof_terms::Signature;
use proof_check::Theory;
use proof_log::write_header;
use std::alloc::Global;
use tptp_base::Sink;
use verifier::{Outcome, RunFault, declare, run_lines};

/// Writes the log's first line, declares what the derivation brings, and runs its lines.
pub fn run_derivation<K: Sink>(
    alloc: Global,
    derivation: &Derivation,
    signature: &Signature,
    limit: u32,
    theory: &mut Theory,
    log: &mut K,
) -> Result<Outcome, RunFault>
    requires extends { Extends theory.old.vocabulary signature.now }
    requires declared { AreDeclared signature.now }
    requires each_form { length derivation.now.forms ≡ length derivation.now.graph.nodes }
    requires ordered { IsOrdered derivation.now.graph.nodes derivation.now.graph }
    requires given { All (IsSentence theory.old.vocabulary) theory.old.formulas }
    requires lines { All (IsSentence signature.now) derivation.now.forms }
    ensures ran { IfOk result (λ ran.
        LogsRuns limit theory.old derivation.now signature.now ran.answers ran.numbers theory.new (K.taken log.old)
        (K.taken log.new)) }
    ensures leads { LeadTo theory.old theory.new }
    ensures cut { OnErr result (TakesSomeOfLog theory.old (K.taken log.old) (K.taken log.new)) }
    ensures cause { IfErr result (λ fault. HasRunCause fault (Rose (K.faults log.old) (K.faults log.new))
        (StopsRun limit theory.old derivation.now signature.now (K.taken log.old) (K.taken log.new))) }
    ensures more_faults { K.faults log.old ≤ K.faults log.new }
{
    begin(alloc, signature, theory, log)?;
    let forms = derivation.forms.as_slice();
    match run_lines(alloc, forms, &derivation.graph, limit, theory, log) {
        Ok(outcome) => Ok(outcome),
        Err(fault) => Err(fault),
    }
}

// Writes the log's first line, and declares what the signature has and the theory lacks.
#[tactic(auto, using(verifier::proofs::Leading::led_none))]
fn begin<K: Sink>(
    alloc: Global,
    signature: &Signature,
    theory: &mut Theory,
    log: &mut K,
) -> Result<(), RunFault>
    requires extends { Extends theory.old.vocabulary signature.now }
    requires declared { AreDeclared signature.now }
    ensures widens { OnOk result (theory.new ≡ widened theory.old signature.now) }
    ensures declared { OnOk result
        (Admits theory.old (declarations theory.old.vocabulary signature.now) (widened theory.old signature.now)) }
    ensures logged { OnOk result
        (Takes (K.taken log.old) (K.taken log.new) (log_text (declarations theory.old.vocabulary signature.now))) }
    ensures in_range { OnOk result (HaveNumbersInRange (declarations theory.old.vocabulary signature.now)) }
    ensures leads { LeadTo theory.old theory.new }
    ensures cut { OnErr result (TakesSomeOfLog theory.old (K.taken log.old) (K.taken log.new)) }
    ensures cause { IfErr result (λ fault. HasCause fault (Rose (K.faults log.old) (K.faults log.new))) }
    ensures more_faults { K.faults log.old ≤ K.faults log.new }
{
    // A signature has so many sorts and symbols at most.
    let _sorts = signature.sort_count();
    let _symbols = signature.symbol_count();
    write_header(log)?;
    match declare(alloc, signature, theory, log) {
        Ok(()) => Ok(()),
        Err(fault) => Err(fault),
    }
}
