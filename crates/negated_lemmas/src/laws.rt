//! A law of facts that a line's negation implies, shown by a function that does nothing.
ghost use Rattle.std.specs.Prelude.{List};
ghost use Rattle.fof_terms.specs.declared.form.Form.{Form};
ghost use Rattle.kernel.specs.Statements.{Statements};
ghost use Rattle.derive_kit.specs.Derived.{SpeakOf};
ghost use Rattle.negated_lemmas.specs.Negated.{implied};

/// Where the facts speak of the theory's and the line's symbols alone, so do the implications from the line's negation.
pub fn implied_facts_speak_alike()
    ensures { (t : Statements) (line : Form) (facts : List Form) → SpeakOf t line facts
        → SpeakOf t line (implied line facts) }
{}
