// One line of a derivation is run.
ghost use Rattle.std.specs.Prelude.{◌≡◌, ◌<◌, ◌≤◌, length, IfOk, IfErr, OnOk, OnErr};
ghost use Rattle.tptp_base.specs.Count.{Rose};
ghost use Rattle.clause_rules.specs.Steps.{AreReady, IsReady};
ghost use Rattle.derive_kit.specs.Derived.{AreOfTheory};
ghost use Rattle.kernel.specs.Statements.{AreClosed};
ghost use Rattle.step_clauses.specs.Room.{HasRoom};
ghost use Rattle.verifier.specs.Faults.{HasCause, HasRunCause};
ghost use Rattle.verifier.specs.Lines.{sources_of as all_sources};
ghost use Rattle.verifier.specs.Logged.{LeadTo, LogsSome};
ghost use Rattle.clause_form.specs.Paths.{forms_of};
ghost use Rattle.verifier.specs.code.Numbered.{AreNumbered, progress_of, derivation_in, Knows};
ghost use Rattle.verifier.specs.code.Taking.{CanTake, TakesAnswer, RunsLine, StopsAt};
ghost use Rattle.verifier.specs.Run as spec;

use crate::answer::LineAnswer;
use crate::entries::add_entries;
use crate::fault::RunFault;
use crate::lines::Lines;
use crate::parents::parents_of;
use clause_form::Parent;
use elaborate::{StepAnswer, leaf, step};
use fof_terms::Form;
use proof_check::Theory;
use std::alloc::Global;
use step_clauses::has_room;
use tptp_base::{List, Memory, Sink};
use tstp_graph::Node;

/// Runs the line at this place, given the numbers of the lines that are accepted so far. Its own joins them. `Room`
/// exactly where the line is not skipped and there is no room for it, but for want of memory.
#[tactic(auto, using(crate::proofs::Leading::led_none))]
pub fn run_line<K: Sink>(
    alloc: Global,
    lines: &Lines<'_>,
    place: usize,
    numbers: &mut List<Option<u64>>,
    theory: &mut Theory,
    log: &mut K,
) -> Result<LineAnswer, RunFault>
    requires within { place < length lines.now.nodes.now }
    requires same { length lines.now.forms.now ≡ length lines.now.nodes.now }
    requires numbered { AreNumbered lines.now.given.now }
    requires knows { Knows (derivation_in lines.now) (progress_of theory.old numbers.old) }
    ensures answered { IfOk result (λ answer.
        RunsLine (derivation_in lines.now) (progress_of theory.old numbers.old) place answer
        (progress_of theory.new numbers.new) (K.taken log.old) (K.taken log.new)) }
    ensures knows { OnOk result (Knows (derivation_in lines.now) (progress_of theory.new numbers.new)) }
    ensures leads { LeadTo theory.old theory.new }
    ensures cut { OnErr result (LogsSome theory.old (K.taken log.old) (K.taken log.new)) }
    ensures cause { IfErr result (λ fault. HasRunCause fault (Rose (K.faults log.old) (K.faults log.new))
        (StopsAt (derivation_in lines.now) (progress_of theory.old numbers.old) place
        (progress_of theory.new numbers.new) (K.taken log.old) (K.taken log.new))) }
    ensures more_faults { K.faults log.old ≤ K.faults log.new }
{
    let node = &lines.nodes[place];
    let form = &lines.forms[place];
    let refs = node.parents.as_slice();
    let Some(parents) = parents_of(alloc, lines.given, lines.forms, numbers.as_slice(), refs)?
    else {
        return Ok(LineAnswer::Skipped);
    };
    let sources = sources_of(node, lines.given, parents.as_slice());
    let symbols = u64::from(theory.signature().symbol_count());
    let room = has_room(alloc, symbols, sources, form)?;
    if !room {
        return Err(RunFault::Room(place));
    }
    let answer = answer_line(alloc, theory, node, sources, form, lines.limit)?;
    take_answer(alloc, answer, place, numbers, theory, log)
}

// The formulas from which a line that has these parents is to follow.
fn sources_of<'a>(node: &Node, given: &'a [Parent], parents: &'a [Parent]) -> &'a [Parent]
    requires { AreNumbered given.now }
    ensures { result.now ≡ all_sources node.now.leaf (forms_of given.now) node.now.cited parents.now }
{
    if node.leaf && !node.cited {
        given
    } else {
        parents
    }
}

// The answer to a line that is to follow from these formulas.
fn answer_line(
    alloc: Global,
    theory: &Theory,
    node: &Node,
    sources: &[Parent],
    form: &Form,
    limit: u32,
) -> Result<StepAnswer, Memory>
    requires sources { AreOfTheory theory.now sources.now }
    requires ready { AreReady theory.now.vocabulary sources.now }
    requires line { IsReady theory.now.vocabulary form.now }
    requires closed { AreClosed theory.now }
    requires room { HasRoom (length theory.now.vocabulary.symbols) (forms_of sources.now) form.now }
    ensures { IfOk result
        (spec.AnswersFrom node.now.leaf theory.now sources.now node.now.cited form.now limit) }
{
    if node.leaf {
        leaf(alloc, theory, sources, node.cited, form, limit)
    } else {
        step(alloc, theory, sources, form, limit)
    }
}

// Takes an answer to the line at this place: its entries are added to the theory and logged.
#[tactic(auto, using(crate::proofs::Leading::led_none))]
fn take_answer<K: Sink>(
    alloc: Global,
    answer: StepAnswer,
    place: usize,
    numbers: &mut List<Option<u64>>,
    theory: &mut Theory,
    log: &mut K,
) -> Result<LineAnswer, RunFault>
    requires within { place < length numbers.old }
    requires adds { CanTake theory.old answer }
    ensures takes { IfOk result (λ taken.
        TakesAnswer answer (progress_of theory.old numbers.old) place taken (progress_of theory.new numbers.new)
        (K.taken log.old) (K.taken log.new)) }
    ensures leads { LeadTo theory.old theory.new }
    ensures cut { OnErr result (LogsSome theory.old (K.taken log.old) (K.taken log.new)) }
    ensures cause { IfErr result (λ fault. HasCause fault (Rose (K.faults log.old) (K.faults log.new))) }
    ensures more_faults { K.faults log.old ≤ K.faults log.new }
{
    match answer {
        StepAnswer::Accepted {
            rule,
            cites,
            entries,
        } => {
            add_entries(alloc, entries.as_slice(), theory, log)?;
            numbers.set(place, Some(theory.len() - 1));
            Ok(LineAnswer::Accepted { rule, cites })
        }
        StepAnswer::Unverified(reason) => Ok(LineAnswer::Unverified(reason)),
    }
}
