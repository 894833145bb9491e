// Derivations are read.
ghost use Rattle.std.specs.Prelude.{◌≡◌, ◌<◌, ◌≤◌, ◌^◌, All, IfOk, IfErr, length};
ghost use Rattle.tptp_base.specs.declared.read.TheConstants.{FILE_SIZE as file_size};
ghost use Rattle.sort_check.specs.Sorting.{Extends, IsSentence};
ghost use Rattle.derivation_text.specs.Derivations.{AreDerivation, IsDerivation, IsDerivationFault, IsItemsFault};
ghost use Rattle.derivation_text.specs.Derivations.{denied_forms as forms_from, names_of as names_from, places_of as places_from};
ghost use Rattle.tstp_graph.specs.Graphs.{IsGraph};
ghost use Rattle.sort_check.specs.declared.line.TextKind.TheVariants as kind;
ghost use Rattle.sort_check.specs.Texts.{denoted};

use crate::derivation::Derivation;
use crate::fault::DerivationFault;
use crate::lines::{forms_of, names_of, places_of};
use crate::text::items_of;
use fof_terms::Signature;
use sort_check::{Line, TextKind, denote};
use std::alloc::Global;
use tptp_base::{Item, List, Memory, Name};
use tstp_graph::{Graph, graph};

/// The derivation that a text is, from given formulas of these names. Its part of a prover's output is read, with
/// places that are counted in the whole text. The signature is that of the problem; further sorts and symbols go to its
/// end.
///
/// The formulas are closed and well-sorted in the signature behind them, and there is one for each node, one name and one
/// place.
///
/// # Errors
///
/// The first fault, in this order: that of the tokens, that of the items, that of the graph, and that against the rules
/// of sorts. After it the signature holds what it held and perhaps further sorts and symbols (`extends`).
#[tactic(auto, using(sort_check::proofs::TermSorts::grows_not))]
pub fn read_derivation(
    alloc: Global,
    text: &[u8],
    given: &[Name],
    signature: &mut Signature,
) -> Result<Derivation, DerivationFault>
    requires few_bytes { length text.now ≤ file_size }
    requires few_given { length given.now < 2 ^ 32 }
    ensures is { IfOk result (λ d. IsDerivation text.now given.now signature.old d signature.new) }
    ensures fault { IfErr result (λ fault. IsDerivationFault text.now given.now signature.old fault) }
    ensures extends { Extends signature.old signature.new }
    ensures sentences { IfOk result (λ d. All (IsSentence signature.new) d.forms) }
    ensures each_form { IfOk result (λ d. length d.forms ≡ length d.graph.nodes) }
    ensures each_name { IfOk result (λ d. length d.names ≡ length d.graph.nodes) }
    ensures each_place { IfOk result (λ d. length d.places ≡ length d.graph.nodes) }
{
    let items = items_of(alloc, text)?;
    match over_items(alloc, items.as_slice(), given, signature) {
        Ok(derivation) => Ok(derivation),
        Err(fault) => Err(fault),
    }
}

// The derivation that items are.
#[tactic(auto, using(sort_check::proofs::TermSorts::grows_not))]
fn over_items(
    alloc: Global,
    items: &[Item],
    given: &[Name],
    signature: &mut Signature,
) -> Result<Derivation, DerivationFault>
    requires few_items { length items.now < 2 ^ 32 }
    requires few_given { length given.now < 2 ^ 32 }
    ensures are { IfOk result (λ d. AreDerivation items.now given.now signature.old d signature.new) }
    ensures fault { IfErr result (λ fault. IsItemsFault items.now given.now signature.old fault) }
    ensures extends { Extends signature.old signature.new }
    ensures sentences { IfOk result (λ d. All (IsSentence signature.new) d.forms) }
    ensures each_form { IfOk result (λ d. length d.forms ≡ length d.graph.nodes) }
    ensures each_name { IfOk result (λ d. length d.names ≡ length d.graph.nodes) }
    ensures each_place { IfOk result (λ d. length d.places ≡ length d.graph.nodes) }
{
    match graph(alloc, items, given) {
        Ok(graph) => over_graph(alloc, items, given, graph, signature),
        Err(fault) => Err(DerivationFault::Graph(fault)),
    }
}

// The derivation that items with this graph are.
#[tactic(auto, using(crate::proofs::Readings::are_derivation, crate::proofs::Readings::each_form, crate::proofs::Readings::each_name, crate::proofs::Readings::each_place, crate::proofs::Readings::are_sentences))]
fn over_graph(
    alloc: Global,
    items: &[Item],
    given: &[Name],
    graph: Graph,
    signature: &mut Signature,
) -> Result<Derivation, DerivationFault>
    requires few_items { length items.now < 2 ^ 32 }
    requires is_graph { IsGraph items.now given.now graph }
    ensures are { IfOk result (λ d. AreDerivation items.now given.now signature.old d signature.new) }
    ensures fault { IfErr result (λ fault. IsItemsFault items.now given.now signature.old fault) }
    ensures extends { Extends signature.old signature.new }
    ensures sentences { IfOk result (λ d. All (IsSentence signature.new) d.forms) }
    ensures each_form { IfOk result (λ d. length d.forms ≡ length d.graph.nodes) }
    ensures each_name { IfOk result (λ d. length d.names ≡ length d.graph.nodes) }
    ensures each_place { IfOk result (λ d. length d.places ≡ length d.graph.nodes) }
{
    match denote(alloc, items, signature, TextKind::Derivation) {
        Ok(lines) => Ok(with_lines(alloc, graph, lines.as_slice())?),
        Err(fault) => Err(DerivationFault::Sort(fault)),
    }
}

// The derivation with this graph and these lines.
fn with_lines(alloc: Global, graph: Graph, lines: &[Line]) -> Result<Derivation, Memory>
    ensures graph { IfOk result (λ d. d.graph ≡ graph) }
    ensures names { IfOk result (λ d. d.names ≡ names_from lines.now) }
    ensures places { IfOk result (λ d. d.places ≡ places_from lines.now) }
    ensures forms { IfOk result (λ d. d.forms ≡ forms_from lines.now) }
{
    let names = names_of(alloc, lines)?;
    let places = places_of(alloc, lines)?;
    let forms = forms_of(alloc, lines)?;
    Ok(Derivation {
        graph,
        names,
        places,
        forms,
    })
}
