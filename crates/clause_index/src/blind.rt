// An index that tells nothing.
ghost use Rattle.std.specs.Prelude.{◌≡◌, [], false, IfOk, OnOk, OnErr};

use crate::partners::Partners;
use fof_terms::Term;
use std::alloc::Global;
use tptp_base::{List, Memory};

/// A blind index: what a search finds over it, it finds without a partner.
#[derive(Drop)]
pub struct BlindIndex;

impl BlindIndex {
    /// It has no state.
    pub fn new() -> BlindIndex {
        BlindIndex
    }
}

impl Partners for BlindIndex {
    ghost entries = { λ _. [] };

    ghost is_whole = { λ _. false };

    fn add(&mut self, _place: u32, _positive: bool, _term: &Term) -> Result<(), Memory> {
        Ok(())
    }

    fn candidates(
        &self,
        alloc: Global,
        _positive: bool,
        _term: &Term,
    ) -> Result<List<u32>, Memory> {
        Ok(List::new(alloc))
    }
}
