//! Instances of universal quantifiers at variables.
ghost use Rattle.std.specs.Prelude.{◌≡◌, IfOk};
ghost use Rattle.flat_proofs.specs.code.Permuting.{at_numbers as numbers_tree};

use derive_kit::{Part, all_e};
use fof_terms::Term;
use std::alloc::Global;
use tptp_base::Memory;

// The instance at the variables of these numbers, the first for the outermost quantifier.
pub(crate) fn at_numbers(alloc: Global, numbers: &[u32], part: Part) -> Result<Part, Memory>
    ensures { IfOk result (λ made. made ≡ numbers_tree numbers.now part) }
{
    let mut made = part;
    for number in numbers {
        made = all_e(alloc, Term::Var(*number), made)?;
    }
    Ok(made)
}
