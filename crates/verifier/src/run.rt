// The lines of a derivation are run.
ghost use Rattle.std.specs.Prelude.{◌≡◌, ◌≤◌, [], length, replicate, None, IfOk, IfErr, OnErr};
ghost use Rattle.std.specs.List.{All};
ghost use Rattle.tptp_base.specs.Count.{Rose};
ghost use Rattle.tstp_graph.specs.Graphs.{IsOrdered};
ghost use Rattle.tstp_graph.specs.Order.{TakesInTurn};
ghost use Rattle.clause_rules.specs.Steps.{IsReady};
ghost use Rattle.verifier.specs.Faults.{HasRunCause};
ghost use Rattle.verifier.specs.Logged.{LeadTo, LogsSome, LogsRun, LogsStopped};
ghost use Rattle.verifier.specs.code.Numbered.{derivation_in, IsOver};

use crate::answer::LineAnswer;
use crate::fault::RunFault;
use crate::line::run_line;
use crate::lines::Lines;
use crate::parents::given_parents;
use fof_terms::Form;
use proof_check::Theory;
use std::alloc::{AllocError, Global};
use tptp_base::{List, Sink};
use tstp_graph::Graph;

/// What the lines of a derivation come to.
#[derive(Drop)]
pub struct Outcome {
    /// The answer to each line, in the order of the text.
    pub answers: List<LineAnswer>,
    /// For each line the number of its formula in the theory, if the line is accepted, in the order of the text. A line
    /// that is checked later has a greater number.
    pub numbers: List<Option<u64>>,
}

/// Runs the lines of a derivation in the theory of its given formulas, in the order of its graph, and answers each in
/// the order of the text. The entries of an accepted line are added to the theory and logged before the next line is
/// looked at. A line with a parent that is not accepted is skipped. A search keeps so many clauses at most.
///
/// # Errors
///
/// `Room` at the first line in that order which is not skipped and for which the symbols of the theory leave no room: the
/// log has then taken the entries of the lines before it. `Sink` where the log failed, and `Memory`: the log has then
/// taken a prefix of the lines of legal entries. Such entries lead to the theory (`leads`).
#[tactic(auto, using(crate::proofs::Leading::led_none))]
pub fn run_lines<K: Sink>(
    alloc: Global,
    forms: &[Form],
    graph: &Graph,
    limit: u32,
    theory: &mut Theory,
    log: &mut K,
) -> Result<Outcome, RunFault>
    requires same { length forms.now ≡ length graph.now.nodes }
    requires ordered { IsOrdered graph.now.nodes graph.now }
    requires given { All (IsReady theory.old.vocabulary) theory.old.formulas }
    requires lines { All (IsReady theory.old.vocabulary) forms.now }
    ensures ran { IfOk result (λ ran.
        LogsRun theory.old
        (record {
          given = theory.old.formulas;
          nodes = graph.now.nodes;
          forms =
              forms.now;
          limit = limit;
        }) graph.now.order ran.answers ran.numbers theory.new (K.taken log.old) (K.taken log.new)) }
    ensures leads { LeadTo theory.old theory.new }
    ensures cut { OnErr result (LogsSome theory.old (K.taken log.old) (K.taken log.new)) }
    ensures cause { IfErr result (λ fault. HasRunCause fault (Rose (K.faults log.old) (K.faults log.new)) (λ place.
        LogsStopped theory.old
        (record {
          given = theory.old.formulas;
          nodes = graph.now.nodes;
          forms =
              forms.now;
          limit = limit;
        }) graph.now.order place theory.new (K.taken log.old) (K.taken log.new))) }
    ensures more_faults { K.faults log.old ≤ K.faults log.new }
{
    let given = given_parents(alloc, theory)?;
    let lines = Lines {
        given: given.as_slice(),
        nodes: graph.nodes.as_slice(),
        forms,
        limit,
    };
    run_in_order(alloc, &lines, graph.order.as_slice(), theory, log)
}

// Runs the lines at these places.
#[tactic(auto, using(crate::proofs::Leading::led_none))]
fn run_in_order<K: Sink>(
    alloc: Global,
    lines: &Lines<'_>,
    order: &[u32],
    theory: &mut Theory,
    log: &mut K,
) -> Result<Outcome, RunFault>
    requires over { IsOver theory.old lines.now }
    requires turns { TakesInTurn lines.now.nodes.now [] order.now }
    ensures ran { IfOk result (λ ran.
        LogsRun theory.old (derivation_in lines.now) order.now ran.answers ran.numbers theory.new (K.taken log.old)
        (K.taken log.new)) }
    ensures leads { LeadTo theory.old theory.new }
    ensures cut { OnErr result (LogsSome theory.old (K.taken log.old) (K.taken log.new)) }
    ensures cause { IfErr result (λ fault. HasRunCause fault (Rose (K.faults log.old) (K.faults log.new)) (λ place.
        LogsStopped theory.old (derivation_in lines.now) order.now place theory.new (K.taken log.old)
        (K.taken log.new))) }
    ensures more_faults { K.faults log.old ≤ K.faults log.new }
{
    let count = lines.nodes.len();
    let mut numbers = no_numbers(alloc, count)?;
    let mut answers = no_answers(alloc, count)?;
    for place in order {
        let place = *place as usize;
        let answer = run_line(alloc, lines, place, &mut numbers, theory, log)?;
        answers.set(place, answer);
    }
    Ok(Outcome { answers, numbers })
}

// No line has a number yet.
fn no_numbers(alloc: Global, count: usize) -> Result<List<Option<u64>>, AllocError>
    ensures { IfOk result (λ numbers. numbers ≡ replicate count None) }
{
    Ok(List::from_vec(vec![in alloc; None; count]?))
}

// An answer for each line, to be replaced.
fn no_answers(alloc: Global, count: usize) -> Result<List<LineAnswer>, AllocError>
    ensures { IfOk result (λ answers. length answers ≡ count) }
{
    let mut answers = List::new(alloc);
    for _ in 0..count {
        answers.push(LineAnswer::Skipped)?;
    }
    Ok(answers)
}
