ghost use Rattle.std.specs.Prelude.{◌≡◌, ℕ, List, ◌∷◌, IfOk, Some};
ghost use Rattle.fof_terms.specs.declared.form.Form.{Form as Formula, Eq, Or};
ghost use Rattle.fof_terms.specs.declared.term.Term.{Term as Inner};
ghost use Rattle.fof_terms.specs.Instance.{instance_at};
ghost use Rattle.fof_terms.specs.Sorts.{Sorted, sort_of_term};
ghost use Rattle.kernel.specs.Statements.{Statements};
ghost use Rattle.kernel.specs.Proves.{Proves};
ghost use Rattle.kernel.specs.Rules.{ProveEach};
ghost use Rattle.derive_kit.specs.Instances.{IsInstance};

use crate::nodes::{Part, all_e, imp_e, imp_i, or_e, subst};
use fof_terms::{Form, SortId, Term};
use kernel::Proof;
use std::alloc::Global;
use tptp_base::{List as Items, Memory};

/// The goal, by the disjunction that `choice` shows and an arm for each of its members, which shows the goal under it.
pub fn cases(alloc: Global, choice: Part, arms: Items<Proof>, goal: Form) -> Result<Part, Memory>
    ensures { IfOk result (λ proof. (t : Statements) (v : List ℕ) (h as_ : List Formula) → Sorted t.vocabulary v goal
        → Proves t v h choice (Or as_) → ProveEach t v h arms as_ goal → Proves t v h proof goal) }
{
    or_e(alloc, goal, choice, arms)
}

/// What `rest` shows under the fact, by the fact that `lemma` shows.
pub fn cut_under(alloc: Global, lemma: Part, fact: Form, rest: Part) -> Result<Part, Memory>
    ensures { IfOk result (λ proof. (t : Statements) (v : List ℕ) (h : List Formula) (a : Formula) →
        Proves t v h lemma fact → Proves t v (fact ∷ h) rest a → Proves t v h proof a) }
{
    imp_e(alloc, imp_i(alloc, fact, rest)?, lemma)
}

/// The instance of what the proof shows, the first term for the outermost variable.
pub fn instance_of(alloc: Global, proof: Part, terms: Items<Term>) -> Result<Part, Memory>
    ensures { IfOk result (λ made. (t : Statements) (v : List ℕ) (h : List Formula) (a b : Formula) →
        IsInstance t.vocabulary v a terms b → Proves t v h proof a → Proves t v h made b) }
{
    each_term(alloc, proof, terms.as_slice())
}

fn each_term(alloc: Global, proof: Part, terms: &[Term]) -> Result<Part, Memory>
    ensures { IfOk result (λ made. (t : Statements) (v : List ℕ) (h : List Formula) (a b : Formula) →
        IsInstance t.vocabulary v a terms.now b → Proves t v h proof a → Proves t v h made b) }
{
    let mut made = proof;
    for term in terms {
        made = all_e(alloc, term.copy(alloc)?, made)?;
    }
    Ok(made)
}

/// The hole filled with the equation's right side, by `fact`, which shows it filled with the left side. The hole speaks
/// of one variable more, number 0, of that sort.
pub fn rewrite_in(
    alloc: Global,
    sort: SortId,
    hole: Form,
    equation: Part,
    fact: Part,
) -> Result<Part, Memory>
    ensures { IfOk result (λ proof. (t : Statements) (v : List ℕ) (h : List Formula) (l r : Inner) →
        Sorted t.vocabulary (sort ∷ v) hole → Proves t v h equation (Eq l r) → sort_of_term t.vocabulary v l ≡ Some sort
        → Proves t v h fact (instance_at l 0 hole) → Proves t v h proof (instance_at r 0 hole)) }
{
    subst(alloc, sort, hole, equation, fact)
}
