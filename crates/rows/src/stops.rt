// A row, run once for each of its calls, which fails.
use crate::ending::Ending;
use crate::row::Calls;
use crate::toolchain::Toolchain;
use crate::trial::{Failing, Trial, run_plainly};
use tptp_base::Memory;

// What fails.
#[derive(Clone, Copy)]
enum Part {
    Store,
    Out,
    Log,
}

/// Runs a row once for each of so many calls of the store, the output and the log, which fails alone, and says which of
/// them stops the run in another way than it must: with status 4 and nothing taken where the store fails, and with
/// status 5 and the heads of what the whole run has written where a sink does. There must be no further calls.
pub fn wrong_stops<T: Toolchain>(
    toolchain: &T,
    trial: Trial<'_>,
    whole: &Ending,
    calls: Calls,
) -> Result<String, Memory> {
    let mut said = String::new(trial.alloc);
    for part in [
        (Part::Store, calls.reads),
        (Part::Out, calls.writes),
        (Part::Log, calls.entries),
    ] {
        say_part(toolchain, trial, whole, part, &mut said)?;
    }
    Ok(said)
}

// Says which calls of a part stop the run in a wrong way.
fn say_part<T: Toolchain>(
    toolchain: &T,
    trial: Trial<'_>,
    whole: &Ending,
    (part, count): (Part, u64),
    said: &mut String,
) -> Result<(), Memory> {
    for before in 0..count {
        let call = before.saturating_add(1);
        let found = run_plainly(toolchain, trial, failing(part, &[call]))?;
        say_stop(part, call, whole, &found, said)?;
    }
    let call = count.saturating_add(1);
    let found = run_plainly(toolchain, trial, failing(part, &[call]))?;
    say_further(part, call, whole, &found, said)
}

// Says how a run stops whose call fails, where it stops in a wrong way.
fn say_stop(
    part: Part,
    call: u64,
    whole: &Ending,
    found: &Ending,
    said: &mut String,
) -> Result<(), Memory> {
    if is_stop(part, whole, found) {
        return Ok(());
    }
    let name = name_of(part);
    let status = found.status;
    let out = found.out.len();
    let log = found.log.len();
    writeln!(
        said,
        "  call {call} of the {name} fails: status {status}, {out} bytes of output, {log} of the log"
    )?;
    Ok(())
}

// Says that a call is made behind the last one, where a run ends in another way than the whole one as it fails.
fn say_further(
    part: Part,
    call: u64,
    whole: &Ending,
    found: &Ending,
    said: &mut String,
) -> Result<(), Memory> {
    if found.status != whole.status || found.out != whole.out || found.log != whole.log {
        let name = name_of(part);
        writeln!(said, "  call {call} of the {name} is made")?;
    }
    Ok(())
}

fn name_of(part: Part) -> &'static str {
    match part {
        Part::Store => "store",
        Part::Out => "output",
        Part::Log => "log",
    }
}

// These calls of a part, and no others.
fn failing(part: Part, calls: &[u64]) -> Failing<'_> {
    let none = Failing {
        reads: &[],
        writes: &[],
        entries: &[],
    };
    match part {
        Part::Store => Failing {
            reads: calls,
            ..none
        },
        Part::Out => Failing {
            writes: calls,
            ..none
        },
        Part::Log => Failing {
            entries: calls,
            ..none
        },
    }
}

// Whether a run stops as it must where a part fails.
fn is_stop(part: Part, whole: &Ending, found: &Ending) -> bool {
    match part {
        Part::Store => found.status == 4 && found.out.is_empty() && found.log.is_empty(),
        Part::Out | Part::Log => {
            found.status == 5
                && whole.out.starts_with(&found.out)
                && whole.log.starts_with(&found.log)
        }
    }
}
