//! A law of the clauses of given formulas as a derivation prints them, shown by a function that does nothing.
ghost use Rattle.std.specs.Prelude.{◌≡◌, ◌≤◌, ℕ, List, [], Some, slice_get, true};
ghost use Rattle.fof_terms.specs.Vocabulary.{Vocabulary};
ghost use Rattle.clause_form.specs.declared.clause.Clause.{Clause as Disjunction};
ghost use Rattle.clause_form.specs.declared.path.Parent.{Parent as Premise};
ghost use Rattle.clause_form.specs.ClauseView.{IsLoneFalsehood};
ghost use Rattle.clause_form.specs.ClauseWays.{IsIn};
ghost use Rattle.clause_form.specs.Clauses.{clauses_of};
ghost use Rattle.clause_form.specs.Norm.{norm_of};
ghost use Rattle.clause_form.specs.Sizes.{norm_size_of};
ghost use Rattle.clause_rules.specs.CoverRule.{IsCoverStep};
ghost use Rattle.step_clauses.specs.Existentials.{existentials};
ghost use Rattle.printed_steps.specs.Carried.{HasItsVariables, has_function};
ghost use Rattle.printed_steps.specs.Printed.{printed};

/// A clause of a parent without existential quantifiers follows from it by `cover`, as it is printed, where its functions
/// keep their numbers.
pub fn given_is_covered()
    ensures { (v : Vocabulary) (number : ℕ → ℕ) (parents : List Premise) (a : ℕ) (p : Premise) (next : ℕ)
        (c : Disjunction) → slice_get parents a ≡ Some p → norm_size_of p.form ≤ 100000
        → existentials (norm_of true p.form) ≡ [] → IsIn c (clauses_of p.form next)
        → ((f : ℕ) → has_function c.lits f ≡ true → number f ≡ f) → HasItsVariables c → (IsLoneFalsehood c → ⊥)
        → IsCoverStep v parents (printed number c) }
{}
