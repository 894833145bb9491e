// The command `prove`.
ghost use Rattle.std.specs.Prelude.{◌≡◌, ◌⊎◌, ◌≤◌, ◌<◌, ◌^◌, IfSome, List as list, OnOk, length};
ghost use Rattle.std.specs.List.{All};
ghost use Rattle.std.specs.Option.{option_copied};
ghost use Rattle.tptp_base.specs.Count.{Rose};
ghost use Rattle.tptp_base.specs.declared.read.TheConstants.{FILE_SIZE as file_size};
ghost use Rattle.sort_check.specs.Given.{given_entries};
ghost use Rattle.sort_check.specs.Sorting.{AreDeclared, AreGivenSorted, IsSentence};
ghost use Rattle.sort_check.specs.declared.line.Line.{Line as line};
ghost use Rattle.problem_proofs.specs.declared.proved.Proved.TheVariants.{Proof};
ghost use Rattle.derivation_check.specs.Claim.{default_word};
ghost use Rattle.read_problems.specs.Answer.{ending_of};
ghost use Rattle.read_problems.specs.Ending.{IsAnswer};
ghost use Rattle.read_problems.specs.OtherFaults.{SaysProblemFault};
ghost use Rattle.read_problems.specs.Sources.{have_conjecture};
ghost use Rattle.read_problems.specs.Stop.{HasCause, IfAnswer, IfStopped};
ghost use Rattle.tptp_commands.specs.Presented as printed;
ghost use Rattle.tptp_commands.specs.Refuted.{IsInBudget};
ghost use Rattle.tptp_commands.specs.Words.{IsFileName};
ghost use Rattle.proofs_are_verified.specs.Printed.{IsPosed};
ghost use Rattle.proofs_are_verified.specs.code.Texts.{IsProofText};
ghost use Rattle.tptp_run.specs.code.Printing.{IsProofFrom, text_of};
ghost use Rattle.tptp_run.specs.declared.report.NoReport.TheVariants as NoCause;
ghost use Rattle.tptp_run.specs.Proving.{EndsProve, IsVerified, SaysProof, SaysProved, SaysSearched};
ghost use Rattle.tptp_run.specs.Proving.{why_word as word_of};

use crate::report::{NoReport, check_text};
use derivation_check::Report;
use problem_proofs::{ProveFault, Proved, Why};
use read_problems::{Answer, Halt, Posed, Source, Stop, TOTAL_SIZE, read_posed, source_of};
use std::alloc::Global;
use tptp_base::{Item, Memory, NullSink, Store, Text};
use tptp_commands::{not_proved, over_size, proof_text, say_over};

/// Reads a problem with all that it includes, searches among at most so many clauses for a proof of it, and prints the
/// proof as a derivation. The text is checked before it is printed, as `verify` checks it, from what was read, and all
/// of it is verified.
pub fn prove<S: Store>(
    alloc: Global,
    store: &mut S,
    root: Option<&str>,
    problem: &str,
    limit: u32,
) -> Result<Answer, Halt>
    requires { IsFileName problem.now }
    ensures ends { IfAnswer result (λ answer.
        IfSome (S.files store.old) (λ files.
        EndsProve files (option_copied root.entry) limit problem.now (ending_of answer))) }
    ensures status { IfAnswer result (λ answer. IsAnswer answer.status) }
    ensures absence { IfAnswer result (λ answer. answer.status ≡ 3
        → Rose (S.absents store.old) (S.absents store.new)
        ⊎ SaysProblemFault (S.files store.old) (option_copied root.entry) problem.now (ending_of answer)) }
    ensures cause { IfStopped result (λ stop. HasCause stop (Rose (S.faults store.old) (S.faults store.new)) ⊥) }
{
    match read_posed(alloc, store, root, problem) {
        Ok(posed) => prove_posed(alloc, problem, posed, limit),
        Err(halt) => Err(halt),
    }
}

// Searches for a proof of what the problem poses. What is posed is what lines of the problem give.
fn prove_posed(alloc: Global, problem: &str, posed: Posed, limit: u32) -> Result<Answer, Halt>
    requires named { IsFileName problem.now }
    requires posed { IsPosed posed.signature posed.given }
    requires budget { posed.read ≤ TOTAL_SIZE }
    requires few { length posed.given < 2 ^ 32 }
    requires sorted { AreGivenSorted posed.signature posed.given }
    requires declared { AreDeclared posed.signature }
    ensures said { IfAnswer result (λ answer. (lines : list line) → posed.given ≡ given_entries lines
        → SaysSearched problem.now limit posed.read lines posed.signature (ending_of answer)) }
    ensures status { IfAnswer result (λ answer. (answer.status ≤ 1) ⊎ (answer.status ≡ 7)) }
    ensures cause { IfStopped result (λ stop. HasCause stop ⊥ ⊥) }
{
    let given = posed.given.as_slice();
    match problem_proofs::prove(alloc, &posed.signature, given, problem.as_bytes(), limit) {
        Ok(Proved::Proof(items)) => say_proof(alloc, problem, posed, items.as_slice(), limit),
        Ok(Proved::Open(why)) => Ok(not_proved(alloc, why_word(why))?),
        Err(ProveFault::Limit(name)) => Ok(say_over(alloc, problem, name)?),
        Err(ProveFault::Memory) => Err(Halt::Stopped(Stop::Memory)),
    }
}

// The word for a search that finds no proof.
fn why_word(why: Why) -> &'static str
    ensures { result.now ≡ word_of why }
{
    match why {
        Why::Dry => "dry",
        Why::Full => "full",
        Why::Heavy => "heavy",
        Why::Wide => "wide",
    }
}

// What is said of the items of a derivation from what the problem poses.
fn say_proof(
    alloc: Global,
    problem: &str,
    posed: Posed,
    items: &[Item],
    limit: u32,
) -> Result<Answer, Halt>
    requires proof { IsProofText posed.signature posed.given limit problem.now (have_conjecture posed.given)
        (text_of problem.now (have_conjecture posed.given) items.now) }
    requires budget { posed.read ≤ TOTAL_SIZE }
    requires few { length posed.given < 2 ^ 32 }
    requires sorted { AreGivenSorted posed.signature posed.given }
    requires declared { AreDeclared posed.signature }
    ensures said { IfAnswer result (λ answer. (lines : list line) → posed.given ≡ given_entries lines
        → SaysProved problem.now limit posed.read lines posed.signature (Proof items.now) (ending_of answer)) }
    ensures status { IfAnswer result (λ answer. (answer.status ≡ 0) ⊎ (answer.status ≡ 7)) }
    ensures cause { IfStopped result (λ stop. HasCause stop ⊥ ⊥) }
{
    let mut source = source_of(alloc, posed)?;
    say_items(alloc, &mut source, problem, items, limit)
}

// The same from what the problem gives.
fn say_items(
    alloc: Global,
    source: &mut Source,
    problem: &str,
    items: &[Item],
    limit: u32,
) -> Result<Answer, Halt>
    requires proof { IsProofFrom problem.now limit source.old
        (text_of problem.now source.old.has_conjecture items.now) }
    requires budget { source.old.read ≤ TOTAL_SIZE }
    requires few { length source.old.names < 2 ^ 32 }
    requires same { source.old.theory.vocabulary ≡ source.old.signature }
    requires sentences { All (IsSentence source.old.signature) source.old.theory.formulas }
    requires declared { AreDeclared source.old.signature }
    ensures said { IfAnswer result (λ answer. SaysProof problem.now limit source.old.read source.old.theory
        source.old.names source.old.marks source.old.has_conjecture
        (printed.proof_text problem.now (default_word source.old.has_conjecture) items.now) (ending_of answer)) }
    ensures status { IfAnswer result (λ answer. (answer.status ≡ 0) ⊎ (answer.status ≡ 7)) }
    ensures cause { IfStopped result (λ stop. HasCause stop ⊥ ⊥) }
{
    let status = status_word(source.has_conjecture);
    let text = proof_text(alloc, problem.as_bytes(), status, items)?;
    say_text(alloc, source, problem, text, limit)
}

// The status of a proof.
fn status_word(has_conjecture: bool) -> &'static [u8]
    ensures { result.now ≡ default_word has_conjecture }
{
    if has_conjecture {
        b"Theorem"
    } else {
        b"Unsatisfiable"
    }
}

// What is said of the text of a proof.
#[tactic(auto, using(crate::proofs::Proves::over_status))]
fn say_text(
    alloc: Global,
    source: &mut Source,
    problem: &str,
    text: Text,
    limit: u32,
) -> Result<Answer, Halt>
    requires proof { IsProofFrom problem.now limit source.old text }
    requires budget { source.old.read ≤ TOTAL_SIZE }
    requires few { length source.old.names < 2 ^ 32 }
    requires same { source.old.theory.vocabulary ≡ source.old.signature }
    requires sentences { All (IsSentence source.old.signature) source.old.theory.formulas }
    requires declared { AreDeclared source.old.signature }
    ensures said { IfAnswer result (λ answer. SaysProof problem.now limit source.old.read source.old.theory
        source.old.names source.old.marks source.old.has_conjecture text (ending_of answer)) }
    ensures status { IfAnswer result (λ answer. (answer.status ≡ 0) ⊎ (answer.status ≡ 7)) }
    ensures cause { IfStopped result (λ stop. HasCause stop ⊥ ⊥) }
{
    match over_size(text.len(), source.read) {
        Some(name) => Ok(say_over(alloc, problem, name)?),
        None => say_checked(alloc, source, problem, text, limit),
    }
}

// The text of a proof, of which a check verifies all.
fn say_checked(
    alloc: Global,
    source: &mut Source,
    problem: &str,
    text: Text,
    limit: u32,
) -> Result<Answer, Halt>
    requires proof { IsProofFrom problem.now limit source.old text }
    requires fits { IsInBudget source.old.read (length text) }
    requires bytes { length text ≤ file_size }
    requires few { length source.old.names < 2 ^ 32 }
    requires same { source.old.theory.vocabulary ≡ source.old.signature }
    requires sentences { All (IsSentence source.old.signature) source.old.theory.formulas }
    requires declared { AreDeclared source.old.signature }
    ensures said { IfAnswer result (λ answer. SaysProof problem.now limit source.old.read source.old.theory
        source.old.names source.old.marks source.old.has_conjecture text (ending_of answer)) }
    ensures status { IfAnswer result (λ answer. answer.status ≡ 0) }
    ensures cause { IfStopped result (λ stop. HasCause stop ⊥ ⊥) }
{
    check_proof(alloc, source, problem, text.as_slice(), limit)?;
    Ok(Answer { status: 0, text })
}

// The report of the check of a proof's text, which verifies all of it.
fn check_proof(
    alloc: Global,
    source: &mut Source,
    problem: &str,
    text: &[u8],
    limit: u32,
) -> Result<Report, Memory>
    requires proof { IsProofFrom problem.now limit source.old text.now }
    requires bytes { length text.now ≤ file_size }
    requires few { length source.old.names < 2 ^ 32 }
    requires same { source.old.theory.vocabulary ≡ source.old.signature }
    requires sentences { All (IsSentence source.old.signature) source.old.theory.formulas }
    requires declared { AreDeclared source.old.signature }
    ensures { OnOk result (IsVerified problem.now limit source.old.theory source.old.names source.old.marks
        source.old.has_conjecture text.now) }
{
    let mut log = NullSink::new();
    match check_text(alloc, &mut log, source, problem, text, limit) {
        Ok(report) => Ok(report),
        Err(fault) => Err(want_of(fault)),
    }
}

// The one cause for which the text of a proof has no report.
fn want_of(fault: NoReport) -> Memory
    requires { fault ≡ NoCause.Memory }
{
    match fault {
        NoReport::Memory => Memory,
        NoReport::Text => unreachable!(),
        NoReport::Room => unreachable!(),
        NoReport::Sink => unreachable!(),
    }
}
