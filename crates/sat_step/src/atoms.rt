//! Atoms and their numbers.
ghost use Rattle.std.specs.Prelude.{◌≡◌, ◌++◌, Some, slice_get, flat_map, IfOk, OnOk};
ghost use Rattle.sat_step.specs.Codes.{code_of, term_code};
ghost use Rattle.sat_step.specs.code.Atoms.{AreNumbered, IsPrefix};

use clause_form::AtomOf;
use fof_terms::Term;
use indexmap::IndexSet;
use std::alloc::Global;
use tptp_base::{List, Memory};

/// Atoms in the order in which they came, and what they are found by.
#[derive(Drop)]
pub struct Atoms {
    pub atoms: List<AtomOf>,
    pub keys: IndexSet<Vec<usize>>,
}

impl Atoms {
    /// No atom.
    pub fn new(alloc: Global) -> Atoms
        ensures { AreNumbered result }
    {
        Atoms {
            atoms: List::new(alloc),
            keys: IndexSet::new(alloc),
        }
    }

    /// The number of the atom, which is a new one where the atom has none.
    pub fn number(&mut self, alloc: Global, atom: &AtomOf) -> Result<usize, Memory>
        requires { AreNumbered self.old }
        ensures numbered { OnOk result (AreNumbered self.new) }
        ensures kept { OnOk result (IsPrefix self.old.atoms self.new.atoms) }
        ensures found { IfOk result (λ n. slice_get self.new.atoms n ≡ Some atom.now) }
    {
        let key = key_of(alloc, atom)?;
        let (number, is_new) = self.keys.insert_full(key)?;
        if is_new {
            self.atoms.push(atom.copy(alloc)?)?;
        }
        Ok(number)
    }
}

/// What the atom is found by.
pub fn key_of(alloc: Global, atom: &AtomOf) -> Result<Vec<usize>, Memory>
    ensures { IfOk result (λ key. key.items ≡ code_of atom.now) }
{
    let mut key = Vec::new(alloc);
    match atom {
        AtomOf::Pred(symbol, args) => {
            key.push(0)?;
            key.push(*symbol as usize)?;
            key.push(args.len())?;
            put_terms(args.as_slice(), &mut key)?;
        }
        AtomOf::Eq(left, right) => {
            key.push(1)?;
            put_term(left, &mut key)?;
            put_term(right, &mut key)?;
        }
        AtomOf::True => key.push(2)?,
        AtomOf::False => key.push(3)?,
    }
    Ok(key)
}

// Puts the code of the term behind the key.
#[cycle(put)]
fn put_term(term: &Term, key: &mut Vec<usize>) -> Result<(), Memory>
    ensures { OnOk result (key.new.items ≡ key.old.items ++ term_code term.now) }
{
    match term {
        Term::Var(distance) => {
            key.push(0)?;
            key.push(*distance as usize)?;
        }
        Term::App(symbol, args) => {
            key.push(1)?;
            key.push(*symbol as usize)?;
            key.push(args.len())?;
            put_terms(args.as_slice(), key)?;
        }
    }
    Ok(())
}

// Puts the codes of the terms behind the key.
#[cycle(put)]
fn put_terms(terms: &[Term], key: &mut Vec<usize>) -> Result<(), Memory>
    ensures { OnOk result (key.new.items ≡ key.old.items ++ flat_map term_code terms.now) }
{
    for term in terms {
        put_term(term, key)?;
    }
    Ok(())
}
