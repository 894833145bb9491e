//! Proofs without parts, and small ones.
ghost use Rattle.std.specs.Prelude.{◌≡◌, [], ◌∷◌, IfOk};
ghost use Rattle.kernel.specs.declared.proof.Proof.{AndI, Line, Refl};

use derive_kit::Part;
use fof_terms::Term;
use kernel::Proof;
use std::alloc::Global;
use tptp_base::{Boxed, List, Memory};

/// A formula of the theory.
pub fn line(alloc: Global, number: u64) -> Result<Part, Memory>
    ensures { IfOk result (λ node. node ≡ Line number) }
{
    Ok(Boxed::new(alloc, Proof::Line(number))?)
}

/// That the term is itself.
pub fn refl(alloc: Global, term: Term) -> Result<Part, Memory>
    ensures { IfOk result (λ node. node ≡ Refl term) }
{
    let term = Boxed::new(alloc, term)?;
    Ok(Boxed::new(alloc, Proof::Refl(term))?)
}

/// Truth.
pub fn truth(alloc: Global) -> Result<Part, Memory>
    ensures { IfOk result (λ node. node ≡ AndI []) }
{
    Ok(Boxed::new(alloc, Proof::AndI(List::new(alloc)))?)
}

/// The place in a list as a number. A place after the 2^32nd, which no number names, is answered by want of memory.
pub fn number(at: usize) -> Result<u32, Memory>
    ensures { IfOk result (λ found. found ≡ at) }
{
    match u32::try_from(at) {
        Ok(at) => Ok(at),
        Err(_) => Err(Memory),
    }
}
