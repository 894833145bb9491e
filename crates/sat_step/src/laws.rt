//! Laws of decisions.
ghost use Rattle.std.specs.Prelude.{◌≡◌, Bool, true, List as Items};
ghost use Rattle.std.specs.List.{list_all};
ghost use Rattle.fof_terms.specs.declared.form.Form.{Form};
ghost use Rattle.clause_form.specs.declared.clause.AtomOf.{AtomOf};
ghost use Rattle.clause_form.specs.declared.clause.Clause.{Clause};
ghost use Rattle.clause_form.specs.Clauses.{clauses_in};
ghost use Rattle.clause_form.specs.Norm.{norm_of};
ghost use Rattle.sat_step.specs.declared.decision.Decision.{Decision};
ghost use Rattle.sat_step.specs.declared.decision.Learned.{Learned};
ghost use Rattle.sat_step.specs.Decisions.{IsDecision, IsRefuted, Satisfies};
ghost use Rattle.sat_step.specs.Propositional.{Valuation, clause_is_true, is_propositional, is_true};
ghost use Rattle.sat_step.specs.Propositional.{DecidesStep, IsPropositionalStep, propositional_clauses};

/// Clauses that are refuted have no valuation that makes all true.
pub fn refuted_clauses_have_no_valuation()
    ensures { (clauses : Items Clause) (log : Items Learned) → IsRefuted clauses log → (atoms : Items AtomOf) → Satisfies atoms clauses → ⊥ }
{}

/// Under each valuation a normal form without quantifiers and equations is true exactly where all its clauses are.
pub fn norms_are_true_by_their_clauses()
    ensures { (v : Valuation) (a : Form) (g : Bool) → is_propositional (norm_of g a) ≡ true
        → is_true v (norm_of g a) ≡ list_all (clause_is_true v) (clauses_in (norm_of g a)) }
{}

/// A decision of the clauses of a propositional step decides whether its parents entail its line.
pub fn propositional_steps_are_decided()
    ensures { (parents : Items Form) (line : Form) (d : Decision) → IsPropositionalStep parents line
        → IsDecision (propositional_clauses parents line) d → DecidesStep parents line d }
{}
