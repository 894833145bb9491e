// Files, sinks and places.
ghost use Rattle.std.specs.Prelude.{IfOk, IsErrOf, OnErr, OnOk, length, ◌<◌, ◌≡◌, ◌≤◌};
ghost use Rattle.tptp_base.specs.Count.{Rose};
ghost use Rattle.tptp_base.specs.Place.{place_of};
ghost use Rattle.tptp_base.specs.Read.{IsOver};
ghost use Rattle.tptp_base.specs.Sink.{Takes, TakesPrefix};
ghost use Rattle.tptp_base.specs.Store.{HasFile, IsMissing};
ghost use Rattle.tptp_base.specs.declared.limit.LimitName.{LimitName};

use crate::{Control, Probe};
use std::alloc::Global;
use tptp_base::{
    FILE_SIZE, Place, ReadFault, Sink, SinkFault, Store, Text, place_at, put_all, read_whole,
};

/// Reads files, writes texts and tells places.
pub trait Base {
    /// The bytes of a file, which may be as many as the budget.
    fn read_whole<S: Store>(
        alloc: Global,
        store: &mut S,
        name: &str,
        budget: u64,
    ) -> Result<Text, ReadFault>
        ensures whole { IfOk result (λ text. HasFile (S.files store.old) name.now (λ file. file ≡ text)) }
        ensures in_budget { IfOk result (λ text. length text ≤ budget) }
        ensures in_limit { IfOk result (λ text. length text ≤ FILE_SIZE) }

        ensures limit { (limit : LimitName) → IsErrOf result (ReadFault.Limit limit) →
            HasFile (S.files store.old) name.now (λ file. IsOver limit budget (length file)) }
        ensures missing { IsErrOf result ReadFault.Absent → IsMissing (S.files store.old) name.now }
        ensures absent { IsErrOf result ReadFault.Absent → Rose (S.absents store.old) (S.absents store.new) }
        ensures failed { IsErrOf result ReadFault.Failed → Rose (S.faults store.old) (S.faults store.new) }

        ensures same_files { S.files store.new ≡ S.files store.old }
        ensures more_absents { S.absents store.old ≤ S.absents store.new }
        ensures more_faults { S.faults store.old ≤ S.faults store.new };

    /// Writes all bytes, in as many pieces as the sink wants.
    fn put_all<K: Sink>(sink: &mut K, bytes: &[u8]) -> Result<(), SinkFault>
        ensures ok { OnOk result (Takes (K.taken sink.old) (K.taken sink.new) bytes.now) }
        ensures err { OnErr result (TakesPrefix (K.taken sink.old) (K.taken sink.new) bytes.now) }
        ensures failed { IsErrOf result SinkFault.Failed → Rose (K.faults sink.old) (K.faults sink.new) }
        ensures more_faults { K.faults sink.old ≤ K.faults sink.new };

    /// The line and column of an offset, which is at most the text's length.
    fn place_at(file: u32, text: &[u8], offset: u64) -> Place
        requires { offset ≤ length text.now }
        ensures { result ≡ place_of file text.now offset };
}

impl Base for Probe {
    fn read_whole<S: Store>(
        alloc: Global,
        store: &mut S,
        name: &str,
        budget: u64,
    ) -> Result<Text, ReadFault> {
        read_whole(alloc, store, name, budget)
    }

    fn put_all<K: Sink>(sink: &mut K, bytes: &[u8]) -> Result<(), SinkFault> {
        put_all(sink, bytes)
    }

    fn place_at(file: u32, text: &[u8], offset: u64) -> Place {
        place_at(file, text, offset)
    }
}

impl Base for Control {
    fn read_whole<S: Store>(
        alloc: Global,
        store: &mut S,
        name: &str,
        budget: u64,
    ) -> Result<Text, ReadFault> {
        match read_whole(alloc, store, name, budget) {
            Ok(text) => Ok(text),
            Err(fault) => Err(fault),
        }
    }

    fn put_all<K: Sink>(sink: &mut K, bytes: &[u8]) -> Result<(), SinkFault> {
        let all = bytes.len();
        match put_all(sink, &bytes[..all]) {
            Ok(()) => Ok(()),
            Err(fault) => Err(fault),
        }
    }

    fn place_at(file: u32, text: &[u8], offset: u64) -> Place {
        let place = place_at(file, text, offset);
        Place {
            file,
            offset,
            line: place.line,
            column: place.column,
        }
    }
}
