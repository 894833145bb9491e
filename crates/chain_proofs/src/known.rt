//! Literals that are known to be false.
ghost use Rattle.std.specs.Prelude.{◌≡◌, [], IfOk, OnOk};
ghost use Rattle.clause_learning.specs.Refutations.{HasSame};
ghost use Rattle.chain_proofs.specs.Known.{AreKept, lit_code};
ghost use Rattle.chain_proofs.specs.code.Keys.{Adds, IsPlace, IsPlaceOrNext};

use clause_form::Lit;
use indexmap::IndexSet;
use sat_step::key_of;
use std::alloc::Global;
use tptp_base::{List, Memory};

/// Literals in the order in which they came to be known, each once, and what they are found by.
#[derive(Drop)]
pub struct Known {
    pub lits: List<Lit>,
    pub keys: IndexSet<Vec<usize>>,
}

impl Known {
    /// These literals, each once.
    pub(crate) fn of(alloc: Global, lits: &[Lit]) -> Result<Known, Memory>
        ensures kept { IfOk result AreKept }
        ensures same { IfOk result (λ known. HasSame lits.now known.lits) }
    {
        let mut known = Known {
            lits: List::new(alloc),
            keys: IndexSet::new(alloc),
        };
        for lit in lits {
            known.add(alloc, lit.copy(alloc)?)?;
        }
        Ok(known)
    }

    /// The place of the literal, if it is there.
    pub(crate) fn place(&self, alloc: Global, lit: &Lit) -> Result<Option<usize>, Memory>
        requires { AreKept self.now }
        ensures { IfOk result (IsPlace self.now.lits lit.now) }
    {
        let key = key_of_lit(alloc, lit)?;
        Ok(self.keys.get_index_of(&key))
    }

    /// The place of the literal, or the next one if it is not there.
    pub(crate) fn place_or_next(&self, alloc: Global, lit: &Lit) -> Result<usize, Memory>
        requires { AreKept self.now }
        ensures { IfOk result (IsPlaceOrNext self.now.lits lit.now) }
    {
        match self.place(alloc, lit)? {
            Some(place) => Ok(place),
            None => Ok(self.lits.len()),
        }
    }

    /// Adds the literal, and answers whether it was not there.
    pub(crate) fn add(&mut self, alloc: Global, lit: Lit) -> Result<bool, Memory>
        requires { AreKept self.old }
        ensures kept { OnOk result (AreKept self.new) }
        ensures added { IfOk result (λ is_new. Adds is_new self.old.lits lit self.new.lits) }
    {
        let key = key_of_lit(alloc, &lit)?;
        let (_, is_new) = self.keys.insert_full(key)?;
        if !is_new {
            return Ok(false);
        }
        self.lits.push(lit)?;
        Ok(true)
    }
}

// What the literal is found by.
fn key_of_lit(alloc: Global, lit: &Lit) -> Result<Vec<usize>, Memory>
    ensures { IfOk result (λ key. key.items ≡ lit_code lit.now) }
{
    let mut key = key_of(alloc, &lit.atom)?;
    let sign = if lit.positive { 1 } else { 0 };
    key.push(sign)?;
    Ok(key)
}
