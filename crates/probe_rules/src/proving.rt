// Proofs of proofs.
ghost use Rattle.clause_form.specs.ClauseView.{closed};
ghost use Rattle.clause_form.specs.Norm.{norm_of};
ghost use Rattle.clause_form.specs.Paths.{reached};
ghost use Rattle.clause_form.specs.Sizes.{norm_size_of};
ghost use Rattle.clause_form.specs.declared.clause.Clause.{Clause as Found};
ghost use Rattle.derive_kit.specs.Instances.{IsInstance};
ghost use Rattle.norm_proofs.specs.Placed.{SortedSomewhere};
ghost use Rattle.fof_terms.specs.Instance.{instance_at};
ghost use Rattle.fof_terms.specs.Sorts.{Sorted, sort_of_term};
ghost use Rattle.fof_terms.specs.declared.form.Form.{Eq, Form as Formula, Imp, Or};
ghost use Rattle.fof_terms.specs.declared.term.Term.{Term as Inner};
ghost use Rattle.kernel.specs.Proves.{Proves};
ghost use Rattle.kernel.specs.Rules.{ProveEach};
ghost use Rattle.kernel.specs.Statements.{Statements};
ghost use Rattle.std.specs.Prelude.{IfOk, List, Some, length, true, ℕ, ◌∷◌, ◌≡◌, ◌≤◌};

use crate::{Control, Probe};
use clause_form::Path;
use derive_kit::{Part, cases, cut_under, instance_of, rewrite_in};
use fof_terms::{Form, SortId, Term};
use kernel::Proof;
use norm_proofs::{norm_back, norm_forth, path_proof};
use std::alloc::Global;
use tptp_base::{List as Items, Memory};

/// Builds proofs.
pub trait Proving {
    /// The goal, by the disjunction that `choice` shows and an arm for each of its members, which shows the
    /// goal under it.
    fn cases(alloc: Global, choice: Part, arms: Items<Proof>, goal: Form) -> Result<Part, Memory>
        ensures { IfOk result (λ proof. (t : Statements) (v : List ℕ) (h as_ : List Formula) →
            Sorted t.vocabulary v goal
            → Proves t v h choice (Or as_) → ProveEach t v h arms as_ goal → Proves t v h proof goal) };

    /// What `rest` shows under the fact, by the fact that `lemma` shows.
    fn cut_under(alloc: Global, lemma: Part, fact: Form, rest: Part) -> Result<Part, Memory>
        ensures { IfOk result (λ proof. (t : Statements) (v : List ℕ) (h : List Formula) (a : Formula) →
            Proves t v h lemma fact → Proves t v (fact ∷ h) rest a → Proves t v h proof a) };

    /// The instance of what the proof shows, the first term for the outermost variable.
    fn instance_of(alloc: Global, proof: Part, terms: Items<Term>) -> Result<Part, Memory>
        ensures { IfOk result (λ made. (t : Statements) (v : List ℕ) (h : List Formula) (a b : Formula) →
            IsInstance t.vocabulary v a terms b → Proves t v h proof a → Proves t v h made b) };

    /// The hole filled with the equation's right side, by `fact`, which shows it filled with the left side.
    fn rewrite_in(
        alloc: Global,
        sort: SortId,
        hole: Form,
        equation: Part,
        fact: Part,
    ) -> Result<Part, Memory>
        ensures { IfOk result (λ proof. (t : Statements) (v : List ℕ) (h : List Formula) (l r : Inner) →
            Sorted t.vocabulary (sort ∷ v) hole → Proves t v h equation (Eq l r) → sort_of_term t.vocabulary v l ≡
            Some sort
            → Proves t v h fact (instance_at l 0 hole) → Proves t v h proof (instance_at r 0 hole)) };

    /// Imp from the formula to its normal form.
    fn norm_forth(alloc: Global, form: &Form) -> Result<Part, Memory>
        requires size { norm_size_of form.now ≤ 100000 }
        requires sorted { SortedSomewhere form.now }
        ensures { IfOk result (λ proof. (t : Statements) (v : List ℕ) (h : List Formula) → length v ≤ 1000000000 →
            Sorted t.vocabulary v form.now
            → Proves t v h proof (Imp form.now (norm_of true form.now))) };

    /// Imp from the formula's normal form to the formula.
    fn norm_back(alloc: Global, form: &Form) -> Result<Part, Memory>
        requires size { norm_size_of form.now ≤ 100000 }
        requires sorted { SortedSomewhere form.now }
        ensures { IfOk result (λ proof. (t : Statements) (v : List ℕ) (h : List Formula) → length v ≤ 1000000000 →
            Sorted t.vocabulary v form.now
            → Proves t v h proof (Imp (norm_of true form.now) form.now)) };

    /// Imp from the formula to the closed clause that the path reaches in it.
    fn path_proof(alloc: Global, norm: &Form, path: &Path) -> Result<Part, Memory>
        requires size { norm_size_of norm.now ≤ 100000 }
        requires sorted { SortedSomewhere norm.now }
        requires fits { (c : Found) × (reached path.now norm.now ≡ Some c) }
        ensures { IfOk result (λ proof. (t : Statements) (v : List ℕ) (h : List Formula) (c : Found) →
            length v ≤ 1000000000 → Sorted t.vocabulary v norm.now
            → reached path.now norm.now ≡ Some c → Proves t v h proof (Imp norm.now (closed c))) };
}

impl Proving for Probe {
    fn cases(alloc: Global, choice: Part, arms: Items<Proof>, goal: Form) -> Result<Part, Memory> {
        cases(alloc, choice, arms, goal)
    }

    fn cut_under(alloc: Global, lemma: Part, fact: Form, rest: Part) -> Result<Part, Memory> {
        cut_under(alloc, lemma, fact, rest)
    }

    fn instance_of(alloc: Global, proof: Part, terms: Items<Term>) -> Result<Part, Memory> {
        instance_of(alloc, proof, terms)
    }

    fn rewrite_in(
        alloc: Global,
        sort: SortId,
        hole: Form,
        equation: Part,
        fact: Part,
    ) -> Result<Part, Memory> {
        rewrite_in(alloc, sort, hole, equation, fact)
    }

    fn norm_forth(alloc: Global, form: &Form) -> Result<Part, Memory> {
        norm_forth(alloc, form)
    }

    fn norm_back(alloc: Global, form: &Form) -> Result<Part, Memory> {
        norm_back(alloc, form)
    }

    fn path_proof(alloc: Global, norm: &Form, path: &Path) -> Result<Part, Memory> {
        path_proof(alloc, norm, path)
    }
}

impl Proving for Control {
    fn cases(alloc: Global, choice: Part, arms: Items<Proof>, goal: Form) -> Result<Part, Memory> {
        match cases(alloc, choice, arms, goal) {
            Ok(proof) => Ok(proof),
            Err(Memory) => Err(Memory),
        }
    }

    fn cut_under(alloc: Global, lemma: Part, fact: Form, rest: Part) -> Result<Part, Memory> {
        match cut_under(alloc, lemma, fact, rest) {
            Ok(proof) => Ok(proof),
            Err(Memory) => Err(Memory),
        }
    }

    fn instance_of(alloc: Global, proof: Part, terms: Items<Term>) -> Result<Part, Memory> {
        match instance_of(alloc, proof, terms) {
            Ok(made) => Ok(made),
            Err(Memory) => Err(Memory),
        }
    }

    fn rewrite_in(
        alloc: Global,
        sort: SortId,
        hole: Form,
        equation: Part,
        fact: Part,
    ) -> Result<Part, Memory> {
        match rewrite_in(alloc, sort, hole, equation, fact) {
            Ok(proof) => Ok(proof),
            Err(Memory) => Err(Memory),
        }
    }

    fn norm_forth(alloc: Global, form: &Form) -> Result<Part, Memory> {
        match norm_forth(alloc, form) {
            Ok(proof) => Ok(proof),
            Err(Memory) => Err(Memory),
        }
    }

    fn norm_back(alloc: Global, form: &Form) -> Result<Part, Memory> {
        match norm_back(alloc, form) {
            Ok(proof) => Ok(proof),
            Err(Memory) => Err(Memory),
        }
    }

    fn path_proof(alloc: Global, norm: &Form, path: &Path) -> Result<Part, Memory> {
        match path_proof(alloc, norm, path) {
            Ok(proof) => Ok(proof),
            Err(Memory) => Err(Memory),
        }
    }
}
