// Formulas and lists, written.
use fof_terms::Form;
use kernel::Entry;
use proof_log::write_entry;
use std::alloc::{AllocError, Global};
use tptp_base::{Boxed, SteadySink};

/// The formula as logs have it, where there is one.
pub fn logged(alloc: Global, form: Option<Form>) -> Option<String> {
    let entry = Boxed::new(alloc, Entry::Name(0, form?)).ok()?;
    written(alloc, entry.get())
}

fn written(alloc: Global, entry: &Entry) -> Option<String> {
    let mut sink = SteadySink::new(alloc);
    write_entry(alloc, entry, &mut sink).ok()?;
    let mut line = String::from_utf8_lossy(alloc, sink.bytes()).ok()?;
    line.pop();
    Some(line)
}

/// Appends bytes, each as the character of its number.
pub fn push_bytes(out: &mut String, bytes: &[u8]) -> Result<(), AllocError> {
    for byte in bytes {
        out.push(char::from(*byte))?;
    }
    Ok(())
}

/// A list whose members have a blank behind them without the last blank, or `none` where it has no members.
pub fn or_none(mut list: String) -> Result<String, AllocError> {
    if list.pop().is_none() {
        list.push_str("none")?;
    }
    Ok(list)
}

/// Appends numbers, each with a blank behind it.
pub fn push_numbers(out: &mut String, numbers: &[u32]) -> Result<(), AllocError> {
    for number in numbers {
        write!(out, "{number} ")?;
    }
    Ok(())
}
