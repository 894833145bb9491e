// Proofs of lines by rules, and the entries of lines with new functions.
ghost use Rattle.std.specs.Prelude.{◌≡◌, [], Some, slice_get, List as ListOf, IfOk};
ghost use Rattle.std.specs.List.{All as Each};
ghost use Rattle.fof_terms.specs.Sorts.{SortedTo};
ghost use Rattle.fof_terms.specs.declared.form.Form.{Form as Formula};
ghost use Rattle.clause_form.specs.declared.path.Parent.{Parent as Stated};
ghost use Rattle.kernel.specs.Proves.{Proves};
ghost use Rattle.clause_rules.specs.Justified.{Shows};
ghost use Rattle.clause_rules.specs.Steps.{AreReady, IsReady};
ghost use Rattle.clause_proofs.specs.Refuting.{theory_of};
ghost use Rattle.clause_proofs.specs.Shown.{ShowsLine};
ghost use Rattle.rule_proofs.specs.ByRule.{AreAlike};
ghost use Rattle.derive_kit.specs.Derived.{AreOfTheory, IsDerivedFrom, numbers_of};
ghost use Rattle.skolem_fresh.specs.Justified.{ShowsSkolem};
ghost use Rattle.clause_form.specs.Paths.{forms_of};
ghost use Rattle.skolem_proofs.specs.Choosing.{ChooseAndEnd};

use crate::{Control, Probe};
use clause_form::Parent;
use clause_rules::Just;
use cover_proofs::{normed, prove};
use derive_kit::Part;
use fof_terms::{Form, Signature};
use kernel::Entry;
use proof_check::Theory;
use skolem_fresh::SkolemJust;
use skolem_proofs::skolem_entries;
use std::alloc::Global;
use tptp_base::{List, Memory};

/// Proves lines.
pub trait Proving {
    /// A proof of the line from its parents, by the justification that shows a rule to give it.
    fn prove(
        alloc: Global,
        signature: &Signature,
        parents: &[Parent],
        line: &Form,
        just: Just,
    ) -> Result<Part, Memory>
        requires ready { AreReady signature.now parents.now }
        requires line { IsReady signature.now line.now }
        requires shown { Shows signature.now parents.now line.now just }
        ensures { IfOk result (ShowsLine signature.now parents.now line.now) };

    /// A proof of the line, by a parent that has the line's flat form.
    fn normed(
        alloc: Global,
        signature: &Signature,
        parent: &Parent,
        line: &Form,
    ) -> Result<Part, Memory>
        requires parent { IsReady signature.now parent.now.form }
        requires line { IsReady signature.now line.now }
        requires alike { AreAlike parent.now.form line.now }
        ensures { IfOk result (λ proof. (formulas : ListOf Formula)
            → slice_get formulas parent.now.number ≡ Some parent.now.form
            → Proves (theory_of signature.now formulas) [] [] proof line.now) };

    /// The entries of a line that puts functions in place of a parent's existential variables.
    fn skolem_entries(
        alloc: Global,
        theory: &Theory,
        just: &SkolemJust,
        parents: &[Parent],
        line: &Form,
    ) -> Result<List<Entry>, Memory>
        requires parents { AreOfTheory theory.now parents.now }
        requires ready { Each (λ (p : Stated). SortedTo 1000000000 theory.now.vocabulary [] p.form) parents.now }
        requires line { SortedTo 1000000000 theory.now.vocabulary [] line.now }
        requires shows { ShowsSkolem theory.now (forms_of parents.now) line.now just.now }
        ensures derives { IfOk result (λ entries. IsDerivedFrom theory.now (numbers_of parents.now) entries line.now) }
        ensures choose { IfOk result (ChooseAndEnd just.now) };
}

impl Proving for Probe {
    fn prove(
        alloc: Global,
        signature: &Signature,
        parents: &[Parent],
        line: &Form,
        just: Just,
    ) -> Result<Part, Memory> {
        prove(alloc, signature, parents, line, just)
    }

    fn normed(
        alloc: Global,
        signature: &Signature,
        parent: &Parent,
        line: &Form,
    ) -> Result<Part, Memory> {
        normed(alloc, signature, parent, line)
    }

    fn skolem_entries(
        alloc: Global,
        theory: &Theory,
        just: &SkolemJust,
        parents: &[Parent],
        line: &Form,
    ) -> Result<List<Entry>, Memory> {
        skolem_entries(alloc, theory, just, parents, line)
    }
}

impl Proving for Control {
    fn prove(
        alloc: Global,
        signature: &Signature,
        parents: &[Parent],
        line: &Form,
        just: Just,
    ) -> Result<Part, Memory> {
        let proof = prove(alloc, signature, parents, line, just)?;
        Ok(proof)
    }

    fn normed(
        alloc: Global,
        signature: &Signature,
        parent: &Parent,
        line: &Form,
    ) -> Result<Part, Memory> {
        let proof = normed(alloc, signature, parent, line)?;
        Ok(proof)
    }

    fn skolem_entries(
        alloc: Global,
        theory: &Theory,
        just: &SkolemJust,
        parents: &[Parent],
        line: &Form,
    ) -> Result<List<Entry>, Memory> {
        match skolem_entries(alloc, theory, just, parents, line) {
            Ok(entries) => Ok(entries),
            Err(Memory) => Err(Memory),
        }
    }
}
