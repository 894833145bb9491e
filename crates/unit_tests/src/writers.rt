// A sink of the program over a writer that takes nothing, and over none.
use crate::said::is;
use proof_log::write_header;
use std::alloc::Global;
use std::io;
use std::io::Write;
use tptp_base::{RealSink, SinkFault, put_all};

// It takes nothing of a piece.
#[derive(Drop)]
struct Idle;

impl Write for Idle {
    fn write(&mut self, _buf: &[u8]) -> io::Result<usize> {
        Ok(0)
    }

    fn flush(&mut self) -> io::Result<()> {
        Ok(())
    }
}

#[test]
fn a_piece_that_is_not_taken_is_a_fault(rt: HostRuntime) {
    is(&rt, said_of(rt.alloc(), Some(Idle), b"ab"), "failed");
}

#[test]
fn a_piece_without_bytes_is_taken(rt: HostRuntime) {
    is(&rt, said_of(rt.alloc(), Some(Idle), b""), "taken");
}

#[test]
fn without_a_writer_a_piece_is_not_taken(rt: HostRuntime) {
    is(&rt, said_of(rt.alloc(), None, b"ab"), "failed");
}

#[test]
fn a_log_that_takes_nothing_is_a_fault(rt: HostRuntime) {
    is(&rt, header(rt.alloc()), "failed");
}

fn header(alloc: Global) -> Option<String> {
    let mut log = RealSink::new(Some(Idle));
    String::from_str(alloc, name_of(write_header(&mut log))).ok()
}

fn said_of(alloc: Global, writer: Option<Idle>, piece: &[u8]) -> Option<String> {
    let mut sink = RealSink::new(writer);
    String::from_str(alloc, name_of(put_all(&mut sink, piece))).ok()
}

fn name_of(outcome: Result<(), SinkFault>) -> &'static str {
    match outcome {
        Ok(()) => "taken",
        Err(SinkFault::Failed) => "failed",
        Err(SinkFault::Memory) => "out of memory",
    }
}
