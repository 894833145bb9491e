//! What bytes build, one by one.
ghost use Rattle.std.specs.Prelude.{◌≡◌, ◌+◌, ◌*◌, IfOk};
ghost use Rattle.packed_clauses.specs.Reading.{read_from, taken, between};

use crate::building::Builder;
use crate::piece::{Kind, kind_of};
use std::alloc::Global;
use tptp_base::Memory;

/// What was read so far: the kind of a piece whose number is not yet whole, this number, and what was built.
#[derive(Drop)]
pub struct Reader {
    pub kind: Option<Kind>,
    pub number: u32,
    pub builder: Builder,
}

/// What the bytes build.
pub fn read(alloc: Global, bytes: &[u8]) -> Result<Builder, Memory>
    ensures { IfOk result (λ builder. builder ≡ (read_from bytes.now).builder) }
{
    let mut reader = Reader {
        kind: None,
        number: 0,
        builder: Builder::new(alloc),
    };
    for byte in bytes {
        reader = take(alloc, reader, *byte)?;
    }
    Ok(reader.builder)
}

// What is read with a byte more.
fn take(alloc: Global, reader: Reader, byte: u8) -> Result<Reader, Memory>
    ensures { IfOk result (λ next. next ≡ taken reader byte) }
{
    let Reader {
        kind,
        number,
        builder,
    } = reader;
    let kind = match kind {
        Some(kind) => kind,
        None => return begin(builder, byte),
    };
    if byte < 128 {
        let builder = builder.with(alloc, kind, next_number(number, byte)?)?;
        return Ok(Reader {
            kind: None,
            number: 0,
            builder,
        });
    }
    let number = next_number(number, byte - 128)?;
    Ok(Reader {
        kind: Some(kind),
        number,
        builder,
    })
}

// What is read where a byte begins a piece.
fn begin(builder: Builder, byte: u8) -> Result<Reader, Memory>
    ensures { IfOk result (λ next. next ≡ taken (between builder) byte) }
{
    match kind_of(byte) {
        Some(kind) => Ok(Reader {
            kind: Some(kind),
            number: 0,
            builder,
        }),
        None => Err(Memory),
    }
}

// The number with a digit more.
fn next_number(number: u32, digit: u8) -> Result<u32, Memory>
    ensures { IfOk result (λ next. next ≡ number * 128 + digit) }
{
    match u32::try_from(number as u64 * 128 + digit as u64) {
        Ok(next) => Ok(next),
        Err(_) => Err(Memory),
    }
}
