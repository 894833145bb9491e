//! Laws of new functions, shown by functions that do nothing.
ghost use Rattle.std.specs.Prelude.{◌≡◌, ℕ, Bool, [], true};
ghost use Rattle.fof_terms.specs.declared.form.Form.{Form as Formula};
ghost use Rattle.fof_terms.specs.Sorts.{is_sorted};
ghost use Rattle.fof_terms.specs.Vocabulary.{Vocabulary};
ghost use Rattle.clause_form.specs.Clauses.{skolemized};
ghost use Rattle.clause_form.specs.Norm.{norm_of};
ghost use Rattle.skolem_fresh.specs.SkolemRule.{IsSkolemized};
ghost use Rattle.step_clauses.specs.Existentials.{existentials};
ghost use Rattle.step_clauses.specs.Skolems.{KnowsFrom, uses_of};

/// Over a vocabulary that has the functions at their numbers, what is made of a normal form is the normal form with
/// these functions in place of its existential variables, as the rule `skolem` has it.
pub fn skolemized_as_used()
    ensures { (v : Vocabulary) (a : Formula) (positive : Bool) (next : ℕ)
        → KnowsFrom v next (existentials (norm_of positive a)) → is_sorted v [] (norm_of positive a) ≡ true
        → IsSkolemized v [] (uses_of (norm_of positive a) next) (norm_of positive a)
        (skolemized (norm_of positive a) next) }
{}
