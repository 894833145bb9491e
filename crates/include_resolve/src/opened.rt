// The files that were opened so far.
ghost use Rattle.std.specs.Prelude.{◌≡◌, ◌≤◌, ◌+◌, ◌∷◌, [], ◌++◌, length, OnOk, OnErr, IfErr};
ghost use Rattle.include_resolve.specs.declared.problem.TheConstants.{TOTAL_SIZE as total_size};
ghost use Rattle.include_resolve.specs.code.Opening.{TakesText, FitsIn, IsOverFault};

use crate::IncludeFault;
use crate::reading::Read;
use crate::spelling::spelled_items;
use std::alloc::Global;
use tptp_base::{Item, LimitName, List, Text};

/// The names of the files that were opened so far, and how many bytes they have together.
#[derive(Drop)]
pub struct Opened {
    pub names: List<Text>,
    pub read: u64,
}

/// The items of a file that was read. It joins the files that were opened.
pub fn take_text(
    alloc: Global,
    opened: &mut Opened,
    name: &str,
    read: Read,
) -> Result<List<Item>, IncludeFault>
    requires fits { FitsIn opened.old read }
    requires budget { opened.old.read ≤ total_size }
    requires few { length opened.old.names ≤ opened.old.read }
    ensures taken { TakesText opened.old opened.new name.now read result }
    ensures budget { opened.new.read ≤ total_size }
{
    let text = match read {
        Read::Whole(text) => text,
        Read::Over(limit) => return Err(over(alloc, name, limit)),
    };
    let number = opened.names.len() as u32;
    let items = spelled_items(alloc, number, name, text.as_slice())?;
    add(alloc, opened, name, text.len() as u64)?;
    Ok(items)
}

// Adds a file with so many bytes.
fn add(alloc: Global, opened: &mut Opened, name: &str, size: u64) -> Result<(), IncludeFault>
    requires { opened.old.read + size ≤ total_size }
    ensures names { OnOk result (opened.new.names ≡ opened.old.names ++ name.now ∷ []) }
    ensures read { OnOk result (opened.new.read ≡ opened.old.read + size) }
    ensures err { IfErr result (λ fault. fault ≡ IncludeFault.Memory) }
    ensures kept { OnErr result (opened.new.read ≡ opened.old.read) }
{
    let name = Text::from_slice(alloc, name.as_bytes())?;
    opened.names.push(name)?;
    opened.read += size;
    Ok(())
}

// The fault that a file of this name is over a limit.
fn over(alloc: Global, name: &str, limit: LimitName) -> IncludeFault
    ensures { IsOverFault name.now limit result }
{
    match Text::from_slice(alloc, name.as_bytes()) {
        Ok(name) => IncludeFault::Limit(name, limit),
        Err(_) => IncludeFault::Memory,
    }
}
