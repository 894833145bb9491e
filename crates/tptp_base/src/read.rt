// Reads a whole file.
ghost use Rattle.std.specs.Prelude.{◌≡◌, ◌+◌, ◌<◌, ◌≤◌, ◌++◌, IfOk, OnOk, OnErr, IsErrOf, length, if◌then◌else◌};
ghost use Rattle.tptp_base.specs.declared.limit.LimitName.{LimitName};
ghost use Rattle.tptp_base.specs.declared.read.ReadFault.TheVariants.{Memory};
ghost use Rattle.tptp_base.specs.Count.{Rose, count_after};
ghost use Rattle.tptp_base.specs.Store.{HasFile, GivesAt, IsMissing};
ghost use Rattle.tptp_base.specs.Read.{IsOver, read_fault};

use crate::{LimitName, Memory, Store, StoreFault, Text};
use std::alloc::Global;
use thiserror::Error;

/// The greatest number of bytes of a file.
pub const FILE_SIZE: u64 = 67_108_864;

// The bytes that are asked for at a time.
const PIECE: u64 = 65_536;

/// Why a file was not read.
#[derive(Clone, Copy, Debug, PartialEq, Eq, Error)]
pub enum ReadFault {
    /// No file has this name.
    #[error("no such file")]
    Absent,
    /// A read failed.
    #[error("the read failed")]
    Failed,
    /// The file has more bytes than the limit of this name allows.
    #[error("limit {0}")]
    Limit(LimitName),
    #[error("out of memory")]
    Memory,
}

impl From<StoreFault> for ReadFault {
    ghost from_gives = { λ fault e. e ≡ read_fault fault };

    fn from(fault: StoreFault) -> Self {
        match fault {
            StoreFault::Absent => ReadFault::Absent,
            StoreFault::Failed => ReadFault::Failed,
            StoreFault::Memory => ReadFault::Memory,
        }
    }
}

impl From<Memory> for ReadFault {
    ghost from_gives = { λ _ e. e ≡ Memory };

    fn from(_: Memory) -> Self {
        ReadFault::Memory
    }
}

/// The bytes of a file, which may be as many as the budget. A file over the budget is read on until it ends
/// or is over the limit of a file, so that at most one byte over that limit is read.
pub fn read_whole<S: Store>(
    alloc: Global,
    store: &mut S,
    name: &str,
    budget: u64,
) -> Result<Text, ReadFault>
    ensures whole { IfOk result (λ text. HasFile (S.files store.old) name.now (λ file. file ≡ text)) }
    ensures in_budget { IfOk result (λ text. length text ≤ budget) }
    ensures in_limit { IfOk result (λ text. length text ≤ FILE_SIZE) }
    ensures given { S.given store.new ≤ S.given store.old + (FILE_SIZE + 1) }

    ensures limit { (limit : LimitName) → IsErrOf result (ReadFault.Limit limit) →
        HasFile (S.files store.old) name.now (λ file. IsOver limit budget (length file)) }
    ensures missing { IsErrOf result ReadFault.Absent → IsMissing (S.files store.old) name.now }
    ensures absent { IsErrOf result ReadFault.Absent → Rose (S.absents store.old) (S.absents store.new) }
    ensures failed { IsErrOf result ReadFault.Failed → Rose (S.faults store.old) (S.faults store.new) }

    ensures same_files { S.files store.new ≡ S.files store.old }
    ensures more_absents { S.absents store.old ≤ S.absents store.new }
    ensures more_faults { S.faults store.old ≤ S.faults store.new }
{
    let mut piece = [0u8; PIECE as usize];
    let mut text = Vec::new(alloc);
    let mut count: u64 = 0;
    while count <= FILE_SIZE {
        let room = PIECE.min(FILE_SIZE + 1 - count) as usize;
        let given = read_piece(store, name, count, room, &mut piece)?;
        if given == 0 {
            return if count <= budget {
                Ok(Text::from_vec(text))
            } else {
                Err(ReadFault::Limit(LimitName::TotalSize))
            };
        }
        count += given as u64;
        keep_piece(&mut text, &piece[..given], count <= budget)?;
    }
    Err(ReadFault::Limit(LimitName::FileSize))
}

// Reads at most as many bytes as there is room for.
fn read_piece<S: Store>(
    store: &mut S,
    name: &str,
    offset: u64,
    room: usize,
    piece: &mut [u8],
) -> Result<usize, StoreFault>
    requires some { 0 < room }
    requires fits { room ≤ length piece.old }
    ensures bound { IfOk result (λ count. count ≤ room) }
    ensures in_piece { IfOk result (λ count. count ≤ length piece.new) }
    ensures given { IfOk result (λ count. S.given store.new ≡ count_after count (S.given store.old)) }
    ensures none_given { OnErr result (S.given store.new ≡ S.given store.old) }
    ensures bytes { IfOk result (λ count. HasFile (S.files store.old) name.now
        (λ file. GivesAt file offset count piece.new)) }
    ensures missing { IsErrOf result StoreFault.Absent → IsMissing (S.files store.old) name.now }
    ensures absent { IsErrOf result StoreFault.Absent → Rose (S.absents store.old) (S.absents store.new) }
    ensures failed { IsErrOf result StoreFault.Failed → Rose (S.faults store.old) (S.faults store.new) }
    ensures same_files { S.files store.new ≡ S.files store.old }
    ensures more_absents { S.absents store.old ≤ S.absents store.new }
    ensures more_faults { S.faults store.old ≤ S.faults store.new }
{
    store.read_at(name, offset, &mut piece[..room])
}

// Appends a piece where it is to be kept.
fn keep_piece(text: &mut Vec<u8>, piece: &[u8], keep: bool) -> Result<(), Memory>
    ensures items { OnOk result (text.new.items ≡ (if keep then text.old.items ++ piece.now else text.old.items)) }
{
    if keep {
        text.extend_from_slice(piece)?;
    }
    Ok(())
}
