ghost use Rattle.std.specs.Prelude.{IfOk};
ghost use Rattle.saturation.specs.code.Known.{IsKnown};

use crate::inferences::Inferences;
use clause_form::Clause;
use std::alloc::Global;
use subsumption::mask_of;
use superpose::Used;
use tptp_base::Memory;

/// What is computed once of each member: its mask, and what inferences use of it.
#[derive(Drop)]
pub struct Known {
    pub mask: u64,
    pub used: Used,
}

/// What is known of the clause.
pub fn known_of<R: Inferences>(alloc: Global, rules: &R, clause: &Clause) -> Result<Known, Memory>
    ensures { IfOk result (IsKnown clause.now) }
{
    Ok(Known {
        mask: mask_of(clause),
        used: rules.used_of(alloc, clause)?,
    })
}
