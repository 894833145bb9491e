use crate::inferences::Inferences;
use clause_form::Clause;
use fof_terms::Signature;
use std::alloc::Global;
use superpose::{Made, Used, add_from_one, add_from_two, used_of};
use tptp_base::{List, Memory};

/// Makes the inferences of ordered resolution and superposition.
#[derive(Drop)]
pub struct Superposition;

impl Inferences for Superposition {
    fn used_of(&self, alloc: Global, clause: &Clause) -> Result<Used, Memory> {
        used_of(alloc, clause)
    }

    fn add_from_one(
        &self,
        alloc: Global,
        signature: &Signature,
        c: &Clause,
        used: &Used,
        made: &mut List<Made>,
    ) -> Result<(), Memory> {
        add_from_one(alloc, signature, c, used, made)
    }

    fn add_from_two(
        &self,
        alloc: Global,
        signature: &Signature,
        c: &Clause,
        used_of_c: &Used,
        d: &Clause,
        used_of_d: &Used,
        made: &mut List<Made>,
    ) -> Result<(), Memory> {
        add_from_two(alloc, signature, c, used_of_c, d, used_of_d, made)
    }
}
