// Derivations.
ghost use Rattle.derivation_text.specs.Derivations.{IsDerivation, IsDerivationFault};
ghost use Rattle.sort_check.specs.Sorting.{Extends, IsSentence};
ghost use Rattle.std.specs.Prelude.{All, IfErr, IfOk, length, ◌<◌, ◌^◌, ◌≡◌, ◌≤◌};
ghost use Rattle.tptp_base.specs.declared.read.TheConstants.{FILE_SIZE as file_size};
ghost use Rattle.tstp_graph.specs.Graphs.{IsFault, IsGraph};

use crate::{Control, Probe};
use derivation_text::{Derivation, DerivationFault, read_derivation};
use fof_terms::Signature;
use std::alloc::Global;
use tptp_base::{Item, Name};
use tstp_graph::{Graph, GraphFault, graph};

/// Reads graphs and derivations.
pub trait Deriving {
    /// The graph of a derivation over a problem whose given formulas have these names.
    fn graph(alloc: Global, items: &[Item], given: &[Name]) -> Result<Graph, GraphFault>
        requires items { length items.now < 2 ^ 32 }
        requires given { length given.now < 2 ^ 32 }
        ensures graph { IfOk result (IsGraph items.now given.now) }
        ensures fault { IfErr result (IsFault items.now given.now) };

    /// The derivation that a text is, from given formulas of these names.
    fn read_derivation(
        alloc: Global,
        text: &[u8],
        given: &[Name],
        signature: &mut Signature,
    ) -> Result<Derivation, DerivationFault>
        requires few_bytes { length text.now ≤ file_size }
        requires few_given { length given.now < 2 ^ 32 }
        ensures is { IfOk result (λ d. IsDerivation text.now given.now signature.old d signature.new) }
        ensures fault { IfErr result (λ fault. IsDerivationFault text.now given.now signature.old fault) }
        ensures extends { Extends signature.old signature.new }
        ensures sentences { IfOk result (λ d. All (IsSentence signature.new) d.forms) }
        ensures each_form { IfOk result (λ d. length d.forms ≡ length d.graph.nodes) }
        ensures each_name { IfOk result (λ d. length d.names ≡ length d.graph.nodes) }
        ensures each_place { IfOk result (λ d. length d.places ≡ length d.graph.nodes) };
}

impl Deriving for Probe {
    fn graph(alloc: Global, items: &[Item], given: &[Name]) -> Result<Graph, GraphFault> {
        graph(alloc, items, given)
    }

    fn read_derivation(
        alloc: Global,
        text: &[u8],
        given: &[Name],
        signature: &mut Signature,
    ) -> Result<Derivation, DerivationFault> {
        read_derivation(alloc, text, given, signature)
    }
}

impl Deriving for Control {
    fn graph(alloc: Global, items: &[Item], given: &[Name]) -> Result<Graph, GraphFault> {
        let all = given.len();
        match graph(alloc, items, &given[..all]) {
            Ok(graph) => Ok(graph),
            Err(fault) => Err(fault),
        }
    }

    fn read_derivation(
        alloc: Global,
        text: &[u8],
        given: &[Name],
        signature: &mut Signature,
    ) -> Result<Derivation, DerivationFault> {
        let all = given.len();
        match read_derivation(alloc, text, &given[..all], signature) {
            Ok(derivation) => Ok(derivation),
            Err(fault) => Err(fault),
        }
    }
}
