// The entries of a line that brings in functions.
ghost use Rattle.std.specs.Prelude.{ℕ, List as Listed, [], IfOk};
ghost use Rattle.fof_terms.specs.Sorts.{SortedTo};
ghost use Rattle.derive_kit.specs.Derived.{IsDerivedFrom};
ghost use Rattle.skolem_fresh.specs.Justified.{ShowsChoice};

use crate::just::SkolemJust;
use crate::telling::tell;
use fof_terms::Form;
use kernel::Entry;
use proof_check::Theory;
use std::alloc::Global;
use tptp_base::{List, Memory};

/// Entries that are legal in turn and end with a lemma of the line: for each function of the justification, the
/// outermost existential variable first, that it chooses what there is. They cite no formula.
pub fn choice_entries(
    alloc: Global,
    theory: &Theory,
    just: &SkolemJust,
    line: &Form,
) -> Result<List<Entry>, Memory>
    requires ready { SortedTo 1000000000 theory.now.vocabulary [] line.now }
    requires shows { ShowsChoice theory.now line.now just.now }
    ensures { IfOk result (λ entries. (cites : Listed ℕ) → IsDerivedFrom theory.now cites entries line.now) }
{
    let SkolemJust::Choice { uses } = just else {
        unreachable!()
    };
    let mut entries = List::new(alloc);
    let proof = tell(alloc, line, uses.as_slice(), theory.len(), &mut entries)?;
    entries.push(Entry::Lemma(proof.into_inner()))?;
    Ok(entries)
}
