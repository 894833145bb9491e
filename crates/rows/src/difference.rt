// What differs between what a row wants and what its run has come to.
use crate::ending::Ending;
use crate::row::{Row, WantedLog};
use std::alloc::{AllocError, Global};

// The greatest number of bytes that are shown of a text.
const SHOWN: usize = 4000;

/// Says what differs: what is wanted, and beside it what was found. Nothing is said where nothing differs.
pub fn differences(alloc: Global, row: &Row, found: &Ending) -> Result<String, AllocError> {
    let mut said = String::new(alloc);
    if row.status != found.status {
        let wanted = row.status;
        let status = found.status;
        writeln!(said, "  status: wanted {wanted}, found {status}")?;
    }
    say_text(alloc, &mut said, "output", &row.out, &found.out)?;
    if let WantedLog::Text(wanted) = &row.log {
        say_text(alloc, &mut said, "log", wanted, &found.log)?;
    }
    Ok(said)
}

// Says how two texts differ, if they do: from the first line on that is not the same in both.
fn say_text(
    alloc: Global,
    said: &mut String,
    what: &str,
    wanted: &[u8],
    found: &[u8],
) -> Result<(), AllocError> {
    if wanted == found {
        return Ok(());
    }
    let same = same_lines(wanted, found);
    let line = same.lines.saturating_add(1);
    let wanted_bytes = wanted.len();
    let found_bytes = found.len();
    writeln!(
        said,
        "  {what}: wanted {wanted_bytes} bytes, found {found_bytes}; from line {line} on"
    )?;
    say_end(alloc, said, "wanted", wanted, same.bytes)?;
    say_end(alloc, said, "found", found, same.bytes)
}

// Shows a text from this byte on.
fn say_end(
    alloc: Global,
    said: &mut String,
    name: &str,
    text: &[u8],
    start: usize,
) -> Result<(), AllocError> {
    let end = text.get(start..).unwrap_or_default();
    let shown = end.get(..SHOWN).unwrap_or(end);
    let shown = String::from_utf8_lossy(alloc, shown)?;
    writeln!(said, "  {name}:")?;
    for line in shown.lines() {
        writeln!(said, "    {line}")?;
    }
    Ok(())
}

// What two texts have in common at their heads.
#[derive(Clone, Copy)]
struct Same {
    lines: u64,
    bytes: usize,
}

// The whole lines at the head of two texts that are the same.
fn same_lines(wanted: &[u8], found: &[u8]) -> Same {
    let mut same = Same { lines: 0, bytes: 0 };
    for (place, (one, other)) in wanted.iter().zip(found).enumerate() {
        if one != other {
            break;
        }
        if *one == b'\n' {
            same.lines = same.lines.saturating_add(1);
            same.bytes = place.saturating_add(1);
        }
    }
    same
}
