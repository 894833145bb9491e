//! Laws of weights and of the order, shown by functions that do nothing.
ghost use Rattle.std.specs.Prelude.{◌≤◌};
ghost use Rattle.fof_terms.specs.Vocabulary.{Vocabulary};
ghost use Rattle.fof_terms.specs.declared.term.Term.{Term as Inner};
ghost use Rattle.clause_form.specs.declared.clause.Clause.{Clause as Disjunction};
ghost use Rattle.clause_form.specs.Covers.{IsInstance};
ghost use Rattle.clause_order.specs.Order.{IsGreater};
ghost use Rattle.clause_order.specs.Weights.{clause_weight};

/// An instance weighs no less than the clause.
pub fn weight_of_instance()
    ensures { (v : Vocabulary) (c e : Disjunction) → IsInstance v c e → clause_weight c ≤ clause_weight e }
{}

/// No term is greater than itself, and what is greater than a greater term is greater.
pub fn order_is_strict()
    ensures irreflexive { (s : Inner) → IsGreater s s → ⊥ }
    ensures transitive { (s t u : Inner) → IsGreater s t → IsGreater t u → IsGreater s u }
{}
