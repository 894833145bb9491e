//! A law of inferences, shown by a function that does nothing.
ghost use Rattle.std.specs.Prelude.{List};
ghost use Rattle.fof_terms.specs.declared.form.Form.{Form as Formula};
ghost use Rattle.fof_terms.specs.Vocabulary.{Vocabulary};
ghost use Rattle.clause_form.specs.declared.path.Parent.{Parent as Premise};
ghost use Rattle.clause_rules.specs.Steps.{AreReady};
ghost use Rattle.inference_proofs.specs.Inferred.{IsInferred, IsRuleStep};

/// What follows from the parents by an inference follows by `resolution`, `paramodulation` or `eqfactor`, or covers the
/// clause of a parent.
pub fn inference_is_step()
    ensures { (v : Vocabulary) (parents : List Premise) (line : Formula) → AreReady v parents → IsInferred v parents line
        → IsRuleStep v parents line }
{}
