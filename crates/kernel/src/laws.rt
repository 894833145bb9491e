//! Laws of natural deduction, shown by functions that do nothing.
ghost use Rattle.std.specs.Prelude.{◌≡◌, ℕ, List};
ghost use Rattle.fof_terms.specs.declared.form.Form.{Form};
ghost use Rattle.kernel.specs.Proves.{Proves};
ghost use Rattle.kernel.specs.Statements.{Statements};
ghost use Rattle.kernel.specs.declared.proof.Proof.{Proof};

/// A proof shows one formula at most, under the same hypotheses over the same variables.
pub fn a_proof_shows_one_formula()
    ensures { (theory : Statements) (sorts : List ℕ) (hypotheses : List Form) (proof : Proof) (first second : Form)
        → Proves theory sorts hypotheses proof first → Proves theory sorts hypotheses proof second → first ≡ second }
{}
