// Files and sinks, in memory and real, and what of them is included.
use crate::said::{failing_sink, is, push_bytes, taken};
use include_resolve::{Problem, resolve};
use std::alloc::{AllocError, Global};
use std::fs;
use tptp_base::{
    Item, LimitName, List, Memory, MemorySink, MemoryStore, ReadFault, RealSink, RealStore, Sink,
    SinkFault, SteadyStore, Store, Text, put_all, read_whole,
};

// Files of these names and texts.
fn files(alloc: Global, rows: &[(&str, &str)]) -> Result<List<(Text, Text)>, AllocError> {
    let mut files = List::new(alloc);
    for (name, text) in rows {
        push_file(alloc, &mut files, name, text)?;
    }
    Ok(files)
}

fn push_file(
    alloc: Global,
    files: &mut List<(Text, Text)>,
    name: &str,
    text: &str,
) -> Result<(), AllocError> {
    let name = Text::from_slice(alloc, name.as_bytes())?;
    let text = Text::from_slice(alloc, text.as_bytes())?;
    files.push((name, text))
}

// Two files of one name.
fn known(alloc: Global) -> Result<List<(Text, Text)>, AllocError> {
    files(alloc, &[("a", "hello"), ("a", "other")])
}

fn slow_store(alloc: Global) -> Result<SteadyStore, Memory> {
    SteadyStore::slow(alloc, known(alloc)?)
}

fn steady_store(alloc: Global) -> Result<SteadyStore, Memory> {
    SteadyStore::new(alloc, known(alloc)?)
}

// What is read of each of these files under its limit, or why it is not read.
fn reads<S: Store>(
    alloc: Global,
    store: &mut S,
    calls: &[(&str, u64)],
) -> Result<String, AllocError> {
    let mut out = String::new(alloc);
    for (name, limit) in calls {
        push_read(alloc, store, &mut out, (name, *limit))?;
    }
    Ok(out)
}

fn push_read<S: Store>(
    alloc: Global,
    store: &mut S,
    out: &mut String,
    (name, limit): (&str, u64),
) -> Result<(), AllocError> {
    match read_whole(alloc, store, name, limit) {
        Ok(text) => push_bytes(out, text.as_slice())?,
        Err(fault) => out.push_str(fault_name(fault))?,
    }
    out.push(';')
}

fn fault_name(fault: ReadFault) -> &'static str {
    match fault {
        ReadFault::Absent => "ABSENT",
        ReadFault::Failed => "FAILED",
        ReadFault::Limit(LimitName::TotalSize) => "TOTAL SIZE",
        _ => "ANOTHER FAULT",
    }
}

#[test]
fn whole_files_are_read_a_byte_at_a_time(rt: HostRuntime) {
    is(&rt, read_slowly(rt.alloc()), "hello;ABSENT;TOTAL SIZE;");
}

fn read_slowly(alloc: Global) -> Option<String> {
    let mut store = slow_store(alloc).ok()?;
    reads(alloc, &mut store, &[("a", 5), ("b", 5), ("a", 4)]).ok()
}

#[test]
fn a_slow_read_gives_one_byte(rt: HostRuntime) {
    is(&rt, slow_piece(rt.alloc()), "1 e\0\0\0");
    is(&rt, steady_piece(rt.alloc()), "4 ello");
}

fn slow_piece(alloc: Global) -> Option<String> {
    let mut store = slow_store(alloc).ok()?;
    piece(alloc, &mut store)
}

fn steady_piece(alloc: Global) -> Option<String> {
    let mut store = steady_store(alloc).ok()?;
    piece(alloc, &mut store)
}

// How many bytes a read gives from the second one on, and the four bytes that it was to fill.
fn piece(alloc: Global, store: &mut SteadyStore) -> Option<String> {
    let mut piece = [0; 4];
    let count = store.read_at("a", 1, &mut piece).ok()?;
    counted(alloc, count, &piece).ok()
}

fn counted(alloc: Global, count: usize, piece: &[u8]) -> Result<String, AllocError> {
    let mut out = format!(in alloc; "{count} ")?;
    push_bytes(&mut out, piece)?;
    Ok(out)
}

// A call fails by its number, and the call behind it does not.
#[test]
fn a_call_fails_by_its_number(rt: HostRuntime) {
    is(&rt, read_with_a_fault(rt.alloc()), "FAILED;");
    is(&rt, written_with_a_fault(rt.alloc()), "failed: cd");
}

fn read_with_a_fault(alloc: Global) -> Option<String> {
    let mut store = failing_store(alloc).ok()?;
    reads(alloc, &mut store, &[("a", 5)]).ok()
}

fn failing_store(alloc: Global) -> Result<MemoryStore, Memory> {
    let files = files(alloc, &[("a", "hello")])?;
    MemoryStore::new(alloc, files, List::from_slice(alloc, &[2])?)
}

fn written_with_a_fault(alloc: Global) -> Option<String> {
    let mut sink = failing_sink(alloc, 1).ok()?;
    written_twice(alloc, &mut sink)
}

fn written_twice(alloc: Global, sink: &mut MemorySink) -> Option<String> {
    let failed = put_all(sink, b"ab");
    put_all(sink, b"cd").ok()?;
    taken(alloc, failed, sink).ok()
}

#[test]
fn a_real_file_is_read(rt: HostRuntime) {
    is(&rt, read_real(&rt), "hello;ABSENT;FAILED;");
}

fn read_real(rt: &HostRuntime) -> Option<String> {
    fs::write(rt, "a.txt", "hello").ok()?;
    let mut store = RealStore::new(rt);
    let calls = [("a.txt", 5), ("b.txt", 5), (".", 5)];
    reads(rt.alloc(), &mut store, &calls).ok()
}

#[test]
fn a_real_file_is_written(rt: HostRuntime) {
    is(&rt, written_real(&rt), "one\ntwo\n");
}

fn written_real(rt: &HostRuntime) -> Option<String> {
    write_real(rt)?;
    fs::read_to_string(rt, "a.log").ok()
}

fn write_real(rt: &HostRuntime) -> Option<()> {
    let mut sink = RealSink::new(Some(fs::create(rt, "a.log").ok()?));
    put_lines(&mut sink).ok()
}

fn put_lines<K: Sink>(sink: &mut K) -> Result<(), SinkFault> {
    put_all(sink, b"one\n")?;
    put_all(sink, b"two\n")
}

#[test]
fn a_selection_drops_comments(rt: HostRuntime) {
    let alloc = rt.alloc();
    is(&rt, kinds(alloc, "include('mid.ax')."), "cfcf");
    is(&rt, kinds(alloc, "include('mid.ax',[b])."), "f");
    is(&rt, kinds(alloc, "% top\ninclude('mid.ax',[b,a])."), "cff");
}

// The items of `top.p`, in which `mid.ax` is included: c for a comment, f for a formula and i for an include.
fn kinds(alloc: Global, top: &str) -> Option<String> {
    let problem = resolved(alloc, top)?;
    kinds_of(alloc, problem.items.as_slice()).ok()
}

fn resolved(alloc: Global, top: &str) -> Option<Problem> {
    let mut store = including_store(alloc, top).ok()?;
    resolve(alloc, &mut store, "top.p", None).ok()
}

fn including_store(alloc: Global, top: &str) -> Result<SteadyStore, Memory> {
    let mid = "% one\nfof(a,axiom,a).\n% two\nfof(b,axiom,b).\n";
    SteadyStore::new(alloc, files(alloc, &[("top.p", top), ("mid.ax", mid)])?)
}

fn kinds_of(alloc: Global, items: &[Item]) -> Result<String, AllocError> {
    let mut kinds = String::new(alloc);
    for item in items {
        kinds.push(kind(item))?;
    }
    Ok(kinds)
}

fn kind(item: &Item) -> char {
    match item {
        Item::Comment(_) => 'c',
        Item::Formula(_) => 'f',
        Item::Include(_) => 'i',
    }
}
