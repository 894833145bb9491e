// Names, written.
use crate::said::{failing_sink, is, shown, taken};
use canon_print::write_name;
use std::alloc::{AllocError, Global};
use tptp_base::{Memory, MemorySink, Name, SteadySink, Text};

#[test]
fn a_prefix_of_a_name_is_written(rt: HostRuntime) {
    is(&rt, prefix(rt.alloc()), "failed: 'it");
}

fn prefix(alloc: Global) -> Option<String> {
    let mut sink = failing_sink(alloc, 3).ok()?;
    prefix_in(alloc, &mut sink).ok()
}

fn prefix_in(alloc: Global, sink: &mut MemorySink) -> Result<String, AllocError> {
    let name = Name::Word(Text::from_slice(alloc, b"it's")?);
    let failed = write_name(&name, sink);
    taken(alloc, failed, sink)
}

#[test]
fn a_copied_name_is_written(rt: HostRuntime) {
    is(&rt, copied(rt.alloc()), "007");
}

fn copied(alloc: Global) -> Option<String> {
    let name = copied_name(alloc).ok()?;
    let mut out = SteadySink::new(alloc);
    write_name(&name, &mut out).ok()?;
    shown(alloc, out.bytes()).ok()
}

fn copied_name(alloc: Global) -> Result<Name, Memory> {
    let name = Name::Integer(Text::from_slice(alloc, b"007")?);
    name.copy(alloc)
}
