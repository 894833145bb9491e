ghost use Rattle.std.specs.Prelude.{◌≡◌, IfOk};
ghost use Rattle.saturation.specs.code.Given.{AreGiven};

use crate::waiting::Waiting;
use clause_form::Clause;
use std::alloc::Global;
use tptp_base::{List, Memory};

/// The inputs, each with its number as origin.
pub fn given(alloc: Global, inputs: &[Clause]) -> Result<List<Waiting>, Memory>
    ensures { IfOk result (AreGiven inputs.now) }
{
    let mut members = List::new(alloc);
    for at in 0..inputs.len() {
        members.push(Waiting::given(alloc, &inputs[at], number(at)?)?)?;
    }
    Ok(members)
}

/// The number, as that of a member.
pub fn number(at: usize) -> Result<u32, Memory>
    ensures { IfOk result (λ n. n ≡ at) }
{
    if at <= u32::MAX as usize {
        Ok(at as u32)
    } else {
        Err(Memory)
    }
}
