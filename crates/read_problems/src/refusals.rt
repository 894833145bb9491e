// The bytes of files, and what is said where they are refused.
ghost use Rattle.std.specs.Prelude.{◌≡◌, ◌⊎◌, ◌≤◌, IfOk, IfSome, length};
ghost use Rattle.tptp_base.specs.Count.{Rose};
ghost use Rattle.tptp_base.specs.Store.{HasFile};
ghost use Rattle.read_problems.specs.Answer.{ending_of};
ghost use Rattle.read_problems.specs.Ending.{IsReadRefusal, IsUnread};
ghost use Rattle.read_problems.specs.Stop.{HasCause, IfRefused, IfStopped};

use crate::saying::{no_such_file, over_limit};
use crate::stop::{Halt, Stop};
use std::alloc::Global;
use tptp_base::{FILE_SIZE, ReadFault, Store, Text, read_whole};

/// The greatest number of bytes that a run reads.
pub const TOTAL_SIZE: u64 = 268_435_456;

/// The bytes of a file. A file that is missing or over a limit is refused.
pub fn read_text<S: Store>(
    alloc: Global,
    store: &mut S,
    name: &str,
    budget: u64,
) -> Result<Text, Halt>
    ensures whole { IfOk result (λ text. HasFile (S.files store.old) name.now (λ file. file ≡ text)) }
    ensures in_budget { IfOk result (λ text. length text ≤ budget) }
    ensures in_limit { IfOk result (λ text. length text ≤ FILE_SIZE) }
    ensures refused { IfRefused result (λ answer.
        IfSome (S.files store.old) (λ files. IsReadRefusal files name.now budget (ending_of answer))) }
    ensures said { IfRefused result (λ answer. IsUnread (S.files store.old) name.now budget (ending_of answer)) }
    ensures status { IfRefused result (λ answer. (answer.status ≡ 3) ⊎ (answer.status ≡ 7)) }
    ensures missing { IfRefused result (λ answer. answer.status ≡ 3
        → Rose (S.absents store.old) (S.absents store.new)) }
    ensures cause { IfStopped result (λ stop. HasCause stop (Rose (S.faults store.old) (S.faults store.new)) ⊥) }
    ensures same_files { S.files store.new ≡ S.files store.old }
    ensures more_absents { S.absents store.old ≤ S.absents store.new }
    ensures more_faults { S.faults store.old ≤ S.faults store.new }
{
    match read_whole(alloc, store, name, budget) {
        Ok(text) => Ok(text),
        Err(ReadFault::Absent) => Err(Halt::Refused(no_such_file(alloc, name.as_bytes())?)),
        Err(ReadFault::Limit(limit)) => Err(Halt::Refused(over_limit(
            alloc,
            name.as_bytes(),
            limit,
        )?)),
        Err(ReadFault::Failed) => Err(Halt::Stopped(Stop::Store)),
        Err(ReadFault::Memory) => Err(Halt::Stopped(Stop::Memory)),
    }
}
