// What formulas mean.
ghost use Rattle.fof_terms.specs.Vocabulary.{Vocabulary};
ghost use Rattle.sort_check.specs.Given.{given_entries};
ghost use Rattle.sort_check.specs.Sorting.{AreGivenSorted, AreSorted, Extends};
ghost use Rattle.sort_check.specs.Texts as spec;
ghost use Rattle.std.specs.Prelude.{IfOk, OnOk, length, ◌<◌, ◌^◌, ◌≡◌};

use crate::{Control, Probe};
use fof_terms::Signature;
use sort_check::{GivenEntry, Line, SortFault, TextKind, denote, given};
use std::alloc::Global;
use tptp_base::{Item, List, Memory};

/// Denotes formulas.
pub trait Denoting {
    /// The lines of all formulas but the type lines, in order.
    fn denote(
        alloc: Global,
        items: &[Item],
        signature: &mut Signature,
        kind: TextKind,
    ) -> Result<List<Line>, SortFault>
        requires { length items.now < 2 ^ 32 }
        ensures gives { spec.Gives (spec.denoted items.now signature.old kind) result signature.new }
        ensures extends { OnOk result (Extends signature.old signature.new) }
        ensures sorted { IfOk result (AreSorted signature.new) }
        ensures keeps { Extends signature.old signature.new };

    /// The formulas that a problem gives, in order: those of roles axiom, hypothesis, definition, assumption,
    /// lemma, theorem, corollary and negated_conjecture as they are, and the conjecture negated.
    fn given(alloc: Global, lines: &[Line]) -> Result<List<GivenEntry>, Memory>
        ensures entries { IfOk result (λ entries. entries ≡ given_entries lines.now) }
        ensures sorted { IfOk result (λ entries. (v : Vocabulary) → AreSorted v lines.now → AreGivenSorted v entries) };
}

impl Denoting for Probe {
    fn denote(
        alloc: Global,
        items: &[Item],
        signature: &mut Signature,
        kind: TextKind,
    ) -> Result<List<Line>, SortFault> {
        denote(alloc, items, signature, kind)
    }

    fn given(alloc: Global, lines: &[Line]) -> Result<List<GivenEntry>, Memory> {
        given(alloc, lines)
    }
}

impl Denoting for Control {
    fn denote(
        alloc: Global,
        items: &[Item],
        signature: &mut Signature,
        kind: TextKind,
    ) -> Result<List<Line>, SortFault> {
        let all = items.len();
        match denote(alloc, &items[..all], signature, kind) {
            Ok(lines) => Ok(lines),
            Err(fault) => Err(fault),
        }
    }

    fn given(alloc: Global, lines: &[Line]) -> Result<List<GivenEntry>, Memory> {
        let entries = given(alloc, lines);
        entries
    }
}
