// The walk through a whole normal form.
ghost use Rattle.std.specs.Prelude.{◌≤◌, ℕ, List as Listed, IfOk};
ghost use Rattle.fof_terms.specs.declared.form.Form.{Form as Formula};
ghost use Rattle.fof_terms.specs.Vocabulary.{Vocabulary};
ghost use Rattle.clause_form.specs.Sizes.{norm_size_of};
ghost use Rattle.skolem_fresh.specs.Choosing.{IsWithin};
ghost use Rattle.skolem_fresh.specs.SkolemRule.{IsSkolemized};
ghost use Rattle.skolem_proofs.specs.Choosing.{IsWitnessedBy};

use crate::witnessing::witness;
use derive_kit::Part;
use fof_terms::Form;
use kernel::Entry;
use skolem_fresh::Use;
use std::alloc::Global;
use tptp_base::{List, Memory};

/// A formula with functions in place of its existential variables.
#[derive(Drop)]
pub struct Skolemized {
    /// The formula.
    pub form: Form,
    /// For each function, the outermost existential variable first, an entry by which it chooses what there is.
    pub choices: List<Entry>,
    /// A proof that the formula with the existential variables implies this one.
    pub proof: Part,
}

/// The normal form with the functions in place of its existential variables, from the left and from the outermost on,
/// with the entries by which they come in, and a proof that the normal form implies it. The proof is for theories in
/// which the formulas that the entries add are numbered from `first` on.
pub fn skolem_proof(
    alloc: Global,
    norm: &Form,
    uses: &[Use],
    first: u64,
) -> Result<Skolemized, Memory>
    requires small { norm_size_of norm.now ≤ 100000 }
    requires fits { (v : Vocabulary) × (scope : Listed ℕ) × (result : Formula) × IsWithin v scope norm.now
        × IsSkolemized v scope uses.now norm.now result }
    ensures { IfOk result (IsWitnessedBy uses.now norm.now first) }
{
    let mut choices = List::new(alloc);
    let made = witness(alloc, norm, uses, first, &mut choices)?;
    Ok(Skolemized {
        form: made.form,
        choices,
        proof: made.part,
    })
}
