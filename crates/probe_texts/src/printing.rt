// Canonical texts.
ghost use Rattle.canon_print.specs.Canonical.{canonical_text, formula_text, general_text};
ghost use Rattle.canon_print.specs.Words as spec;
ghost use Rattle.canon_print.specs.Words.{name_text};
ghost use Rattle.std.specs.Prelude.{IfOk, IsErrOf, OnErr, OnOk, ◌<◌, ◌≡◌, ◌≤◌};
ghost use Rattle.tptp_base.specs.Count.{Rose};
ghost use Rattle.tptp_base.specs.Sink.{Takes, TakesPrefix};

use crate::{Control, Probe};
use canon_print::{print, print_formula, print_general, print_name, write_name};
use std::alloc::Global;
use tptp_base::{GTerm, Item, Memory, Name, Sink, SinkFault, Surface, Text};

/// Prints items and their parts.
pub trait Printing {
    /// The canonical text of the items, each of which ends with a line feed.
    fn print(alloc: Global, items: &[Item]) -> Result<Text, Memory>
        ensures { IfOk result (λ text. text ≡ canonical_text items.now) };

    /// The formula's part of that text.
    fn print_formula(alloc: Global, formula: &Surface) -> Result<Text, Memory>
        ensures { IfOk result (λ text. text ≡ formula_text formula.now) };

    /// The general term's part of that text.
    fn print_general(alloc: Global, term: &GTerm) -> Result<Text, Memory>
        ensures { IfOk result (λ text. text ≡ general_text term.now) };

    /// The name's part of that text.
    fn print_name(alloc: Global, name: &Name) -> Result<Text, Memory>
        ensures { IfOk result (λ text. text ≡ name_text name.now) };

    /// Appends the name's part of the canonical text; on a refusal a prefix of it.
    fn write_name<K: Sink>(name: &Name, sink: &mut K) -> Result<(), SinkFault>
        ensures ok { OnOk result (Takes (K.taken sink.old) (K.taken sink.new) (spec.name_text name.now)) }
        ensures err { OnErr result (TakesPrefix (K.taken sink.old) (K.taken sink.new) (spec.name_text name.now)) }
        ensures failed { IsErrOf result SinkFault.Failed → Rose (K.faults sink.old) (K.faults sink.new) }
        ensures more_faults { K.faults sink.old ≤ K.faults sink.new };
}

impl Printing for Probe {
    fn print(alloc: Global, items: &[Item]) -> Result<Text, Memory> {
        print(alloc, items)
    }

    fn print_formula(alloc: Global, formula: &Surface) -> Result<Text, Memory> {
        print_formula(alloc, formula)
    }

    fn print_general(alloc: Global, term: &GTerm) -> Result<Text, Memory> {
        print_general(alloc, term)
    }

    fn print_name(alloc: Global, name: &Name) -> Result<Text, Memory> {
        print_name(alloc, name)
    }

    fn write_name<K: Sink>(name: &Name, sink: &mut K) -> Result<(), SinkFault> {
        write_name(name, sink)
    }
}

impl Printing for Control {
    fn print(alloc: Global, items: &[Item]) -> Result<Text, Memory> {
        let all = items.len();
        let text = print(alloc, &items[..all])?;
        Ok(text)
    }

    fn print_formula(alloc: Global, formula: &Surface) -> Result<Text, Memory> {
        match print_formula(alloc, formula) {
            Ok(text) => Ok(text),
            Err(Memory) => Err(Memory),
        }
    }

    fn print_general(alloc: Global, term: &GTerm) -> Result<Text, Memory> {
        match print_general(alloc, term) {
            Ok(text) => Ok(text),
            Err(Memory) => Err(Memory),
        }
    }

    fn print_name(alloc: Global, name: &Name) -> Result<Text, Memory> {
        match print_name(alloc, name) {
            Ok(text) => Ok(text),
            Err(Memory) => Err(Memory),
        }
    }

    fn write_name<K: Sink>(name: &Name, sink: &mut K) -> Result<(), SinkFault> {
        match write_name(name, sink) {
            Ok(()) => Ok(()),
            Err(fault) => Err(fault),
        }
    }
}
