//! What the numbers of atoms stand for.
ghost use Rattle.std.specs.Prelude.{◌≡◌, map, slice_index_or, IfOk};
ghost use Rattle.clause_form.specs.declared.clause.AtomOf.TheVariants.{False};
ghost use Rattle.sat_step.specs.code.Numbers.{read_lit, read_learned, sign_lits};

use crate::decision::Learned;
use clause_form::{AtomOf, Lit};
use clause_learning::{Learned as Step, Literal};
use sqlite_items::at;
use std::alloc::Global;
use tptp_base::{List, Memory};

/// The log over the atoms.
pub fn read_log(alloc: Global, atoms: &[AtomOf], log: &[Step]) -> Result<List<Learned>, Memory>
    ensures { IfOk result (λ read. read ≡ map (read_learned atoms.now) log.now) }
{
    let mut read = List::new(alloc);
    for step in log {
        read.push(Learned {
            lits: read_lits(alloc, atoms, step.lits.as_slice())?,
            from: List::from_slice(alloc, step.from.as_slice())?,
        })?;
    }
    Ok(read)
}

// The literals over the atoms.
fn read_lits(alloc: Global, atoms: &[AtomOf], literals: &[Literal]) -> Result<List<Lit>, Memory>
    ensures { IfOk result (λ lits. lits ≡ map (read_lit atoms.now) literals.now) }
{
    let mut lits = List::new(alloc);
    for literal in literals {
        lits.push(Lit {
            positive: literal.positive,
            atom: atom_at(alloc, atoms, literal.atom)?,
        })?;
    }
    Ok(lits)
}

// The atom of this number, or falsehood where there is none.
fn atom_at(alloc: Global, atoms: &[AtomOf], number: usize) -> Result<AtomOf, Memory>
    ensures { IfOk result (λ atom. atom ≡ slice_index_or atoms.now number False) }
{
    match at(atoms, number) {
        Some(atom) => atom.copy(alloc),
        None => Ok(AtomOf::False),
    }
}

/// A literal of each atom, by the signs.
pub fn read_signs(alloc: Global, atoms: &[AtomOf], signs: &[bool]) -> Result<List<Lit>, Memory>
    ensures { IfOk result (λ lits. lits ≡ sign_lits atoms.now 0 signs.now) }
{
    let mut lits = List::new(alloc);
    for (number, sign) in signs.iter().enumerate() {
        lits.push(Lit {
            positive: *sign,
            atom: atom_at(alloc, atoms, number)?,
        })?;
    }
    Ok(lits)
}
