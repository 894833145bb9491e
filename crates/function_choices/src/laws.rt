//! A law of choices, shown by a function that does nothing.
ghost use Rattle.std.specs.Prelude.{◌≡◌, ℕ, List as Listed, [], true};
ghost use Rattle.fof_terms.specs.Sorts.{is_sorted};
ghost use Rattle.fof_terms.specs.Vocabulary.{Vocabulary};
ghost use Rattle.fof_terms.specs.declared.form.Form.{Form as Formula};
ghost use Rattle.skolem_fresh.specs.SkolemRule.{IsSkolemized};
ghost use Rattle.skolem_fresh.specs.declared.just.Use.{Use as Used};
ghost use Rattle.function_choices.specs.Choices.{IsChosen};
ghost use Rattle.function_choices.specs.declared.atoms.Placed.{Placed as Atomic};

/// With what is chosen, a normal form is that with functions in place of its existential variables, as the rule `skolem`
/// has it. So all arguments are there that a function needs.
pub fn chosen_as_skolemized()
    ensures { (v : Vocabulary) (atoms : Listed Atomic) (symbols : Listed ℕ) (a b : Formula) (uses : Listed Used)
        → is_sorted v [] a ≡ true → IsChosen v atoms symbols [] [] a uses b → IsSkolemized v [] uses a b }
{}
