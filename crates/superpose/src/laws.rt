//! Laws of inferences, shown by functions that do nothing.
ghost use Rattle.std.specs.Prelude.{ℕ, List};
ghost use Rattle.fof_terms.specs.declared.term.Term.{Term as Inner};
ghost use Rattle.fof_terms.specs.Vocabulary.{Vocabulary};
ghost use Rattle.clause_form.specs.declared.clause.Clause.{Clause as Disjunction};
ghost use Rattle.clause_form.specs.Covers.{AreSorted, IsInstance, scope_of};
ghost use Rattle.clause_rules.specs.Steps.{scope_of_both};
ghost use Rattle.superpose.specs.Absent.{AreWithout, IsNotInDraft};
ghost use Rattle.superpose.specs.Drafts.{Draft, IsMadeBy};
ghost use Rattle.superpose.specs.Inferences.{InfersFromOne, InfersFromTwo, IsDraftOfOne, IsDraftOfTwo};
ghost use Rattle.superpose.specs.MostGeneral.{IsBestOf, IsMostGeneral};

/// Each inference from two clauses is an instance of the one at the same literals, sides and place under a most general
/// unifier.
pub fn best_inference_from_two()
    ensures { (v : Vocabulary) (c d : Disjunction) (f : Draft) (e : Disjunction) (s : ℕ → Inner)
        → AreSorted v (scope_of c) c.lits → AreSorted v (scope_of d) d.lits → IsDraftOfTwo c d f
        → IsMostGeneral v (scope_of_both c d) f (scope_of e) s → IsMadeBy v (scope_of_both c d) f e s
        → IsBestOf v (scope_of_both c d) f e }
{}

/// The same for an inference from one clause.
pub fn best_inference_from_one()
    ensures { (v : Vocabulary) (c : Disjunction) (f : Draft) (e : Disjunction) (s : ℕ → Inner)
        → AreSorted v (scope_of c) c.lits → IsDraftOfOne c f → IsMostGeneral v (scope_of c) f (scope_of e) s
        → IsMadeBy v (scope_of c) f e s → IsBestOf v (scope_of c) f e }
{}

/// A clause that has the best one as an instance, and that the draft makes too, is as good.
pub fn best_of_renamed()
    ensures { (v : Vocabulary) (scope : List ℕ) (f : Draft) (e small : Disjunction) (s : ℕ → Inner)
        → IsBestOf v scope f e → IsInstance v small e → IsMadeBy v scope f small s → IsBestOf v scope f small }
{}

/// A draft has no symbol that its premises lack.
pub fn drafts_bring_no_symbol()
    ensures of_two { (k : ℕ) (c d : Disjunction) (f : Draft) → AreWithout k c.lits → AreWithout k d.lits
        → IsDraftOfTwo c d f → IsNotInDraft k f }
    ensures of_one { (k : ℕ) (c : Disjunction) (f : Draft) → AreWithout k c.lits → IsDraftOfOne c f
        → IsNotInDraft k f }
{}

/// What follows from well-sorted clauses is well-sorted.
pub fn conclusion_is_sorted()
    ensures from_two { (v : Vocabulary) (c d e : Disjunction) (s : ℕ → Inner) → AreSorted v (scope_of c) c.lits
        → AreSorted v (scope_of d) d.lits → InfersFromTwo v c d e s → AreSorted v (scope_of e) e.lits }
    ensures from_one { (v : Vocabulary) (c e : Disjunction) (s : ℕ → Inner) → AreSorted v (scope_of c) c.lits
        → InfersFromOne v c e s → AreSorted v (scope_of e) e.lits }
{}
