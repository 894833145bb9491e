// What is found, as text, and the text that is wanted.
use std::alloc::{AllocError, Global};
use std::process::Abort;
use tptp_base::{List, MemorySink, SinkFault};

/// The text that was found, or that a call fails behind which it stands, must be the one that is wanted.
pub fn is<R: Abort>(rt: &R, found: Option<String>, wanted: &str) {
    match found {
        Some(found) => assert_eq!(*rt; found.as_str(), wanted),
        None => assert_eq!(*rt; "a call fails", wanted),
    }
}

/// Appends bytes, each as the character of its number.
pub fn push_bytes(out: &mut String, bytes: &[u8]) -> Result<(), AllocError> {
    for byte in bytes {
        out.push(char::from(*byte))?;
    }
    Ok(())
}

/// The characters of bytes.
pub fn shown(alloc: Global, bytes: &[u8]) -> Result<String, AllocError> {
    let mut out = String::new(alloc);
    push_bytes(&mut out, bytes)?;
    Ok(out)
}

/// A sink that fails at the call of this number.
pub fn failing_sink(alloc: Global, call: u64) -> Result<MemorySink, AllocError> {
    Ok(MemorySink::new(alloc, List::from_slice(alloc, &[call])?))
}

/// How a write has ended, and what the sink has taken.
pub fn taken(
    alloc: Global,
    outcome: Result<(), SinkFault>,
    sink: &MemorySink,
) -> Result<String, AllocError> {
    let mut out = String::from_str(alloc, ending(outcome))?;
    push_bytes(&mut out, sink.bytes())?;
    Ok(out)
}

fn ending(outcome: Result<(), SinkFault>) -> &'static str {
    match outcome {
        Ok(()) => "done: ",
        Err(SinkFault::Failed) => "failed: ",
        Err(SinkFault::Memory) => "out of memory: ",
    }
}
