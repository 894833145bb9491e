//! A law of the formulas of clauses, shown by a function that does nothing.
ghost use Rattle.std.specs.Prelude.{◌≡◌, Some};
ghost use Rattle.clause_form.specs.ClauseView.{clause_of};
ghost use Rattle.clause_form.specs.declared.clause.Clause.{Clause as Disjunction};
ghost use Rattle.input_proofs.specs.Formulas.{formula_of};

/// The formula of a clause is the clause again.
pub fn view_of_formula()
    ensures { (c : Disjunction) → clause_of (formula_of c) ≡ Some c }
{}
