// The entries of a line that puts functions in place of a parent's existential variables.
ghost use Rattle.std.specs.Prelude.{◌≤◌, [], IfOk};
ghost use Rattle.std.specs.List.{All as Each};
ghost use Rattle.fof_terms.specs.Sorts.{SortedTo};
ghost use Rattle.clause_form.specs.declared.path.Parent.{Parent as Stated};
ghost use Rattle.clause_form.specs.Sizes.{norm_size_of};
ghost use Rattle.derive_kit.specs.Derived.{AreOfTheory, IsDerivedFrom, numbers_of};
ghost use Rattle.norm_proofs.specs.Placed.{SortedSomewhere};
ghost use Rattle.skolem_fresh.specs.Justified.{ShowsSkolem};
ghost use Rattle.clause_form.specs.Paths.{forms_of};
ghost use Rattle.skolem_proofs.specs.Choosing.{ChooseAndEnd};
ghost use Rattle.skolem_proofs.specs.code.Leading.{LeadsToLine};

use crate::whole::{Skolemized, skolem_proof};
use clause_form::{Parent, norm_signed};
use derive_kit::{Part, imp_e};
use fof_terms::Form;
use kernel::{Entry, Proof};
use norm_proofs::{apply, norm_back, norm_forth};
use proof_check::Theory;
use skolem_fresh::SkolemJust;
use std::alloc::Global;
use tptp_base::{Boxed, List, Memory};

/// Entries that are legal in turn and end with a lemma of the line, as the justification shows that it puts functions
/// in place of a parent's existential variables: for each function, the outermost existential variable first, that it
/// chooses what there is. The lemma cites the parent.
pub fn skolem_entries(
    alloc: Global,
    theory: &Theory,
    just: &SkolemJust,
    parents: &[Parent],
    line: &Form,
) -> Result<List<Entry>, Memory>
    requires parents { AreOfTheory theory.now parents.now }
    requires ready { Each (λ (p : Stated). SortedTo 1000000000 theory.now.vocabulary [] p.form) parents.now }
    requires line { SortedTo 1000000000 theory.now.vocabulary [] line.now }
    requires shows { ShowsSkolem theory.now (forms_of parents.now) line.now just.now }
    ensures derives { IfOk result (λ entries. IsDerivedFrom theory.now (numbers_of parents.now) entries line.now) }
    ensures choose { IfOk result (ChooseAndEnd just.now) }
{
    let SkolemJust::Skolem { parent, uses } = just else {
        unreachable!()
    };
    let parent = &parents[*parent];
    let norm = norm_signed(alloc, &parent.form, true)?;
    let made = skolem_proof(alloc, &norm, uses.as_slice(), theory.len())?;
    let Skolemized {
        form,
        choices,
        proof,
    } = made;
    let whole = line_proof(alloc, parent, &form, line, proof)?;
    let mut entries = choices;
    entries.push(Entry::Lemma(whole.into_inner()))?;
    Ok(entries)
}

// A proof of the line by the parent, whose normal form implies the formula, which has the line's normal form.
fn line_proof(
    alloc: Global,
    parent: &Parent,
    form: &Form,
    line: &Form,
    proof: Part,
) -> Result<Part, Memory>
    requires parent_small { norm_size_of parent.now.form ≤ 100000 }
    requires parent_sorted { SortedSomewhere parent.now.form }
    requires form_small { norm_size_of form.now ≤ 100000 }
    requires form_sorted { SortedSomewhere form.now }
    requires line_small { norm_size_of line.now ≤ 100000 }
    requires line_sorted { SortedSomewhere line.now }
    ensures { IfOk result (λ made. LeadsToLine parent.now form.now line.now proof made) }
{
    let cited = Boxed::new(alloc, Proof::Line(parent.number))?;
    let norm = apply(alloc, norm_forth(alloc, &parent.form)?, cited)?;
    let made = imp_e(alloc, proof, norm)?;
    let normed = apply(alloc, norm_forth(alloc, form)?, made)?;
    apply(alloc, norm_back(alloc, line)?, normed)
}
