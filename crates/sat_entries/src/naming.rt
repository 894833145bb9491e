//! Which of the clauses that were given a log names.
ghost use Rattle.std.specs.Prelude.{◌≡◌, IfOk, length};
ghost use Rattle.sat_entries.specs.code.Naming.{AreMarked, MarksNamed};

use sat_step::Learned;
use std::alloc::Global;
use tptp_base::{List, Memory};

/// Which of so many clauses, which are numbered first, the log names.
pub fn named_inputs(alloc: Global, count: usize, log: &[Learned]) -> Result<List<bool>, Memory>
    ensures { IfOk result (AreMarked count log.now) }
{
    let mut marks = unmarked(alloc, count)?;
    for learned in log {
        mark(&mut marks, learned.from.as_slice());
    }
    Ok(marks)
}

// So many places, none of which is marked.
fn unmarked(alloc: Global, count: usize) -> Result<List<bool>, Memory>
    ensures { IfOk result (λ marks. length marks ≡ count) }
{
    let mut marks = List::new(alloc);
    for _ in 0..count {
        marks.push(false)?;
    }
    Ok(marks)
}

// Marks the places of these numbers, as far as there are places.
fn mark(marks: &mut List<bool>, numbers: &[u64])
    ensures { MarksNamed numbers.now marks.old marks.new }
{
    for number in numbers {
        let place = *number as usize;
        if place < marks.len() {
            marks.set(place, true);
        }
    }
}
