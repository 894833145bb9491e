//! Laws of subsumption, shown by functions that do nothing.
ghost use Rattle.std.specs.Prelude.{◌≡◌, []};
ghost use Rattle.fof_terms.specs.Vocabulary.{Vocabulary};
ghost use Rattle.clause_form.specs.declared.clause.Clause.{Clause as Disjunction};
ghost use Rattle.clause_form.specs.Covers.{AreSorted, IsInstance, scope_of};
ghost use Rattle.subsumption.specs.Mask.{IsWithin, mask};
ghost use Rattle.subsumption.specs.Subsumes.{Subsumes};

/// What subsumes a clause subsumes each instance of it.
pub fn subsumer_of_instance()
    ensures { (v : Vocabulary) (m c e : Disjunction) → AreSorted v (scope_of c) c.lits → IsInstance v c e
        → Subsumes v m c → Subsumes v m e }
{}

/// A clause subsumes its instances.
pub fn subsumes_its_instance()
    ensures { (v : Vocabulary) (c e : Disjunction) → IsInstance v c e → Subsumes v c e }
{}

/// The empty clause is subsumed only by an empty one.
pub fn subsumed_by_empty()
    ensures { (v : Vocabulary) (m e : Disjunction) → Subsumes v m e → e.lits ≡ [] → m.lits ≡ [] }
{}

/// The mask of a clause has each bit of the mask of what subsumes it.
pub fn mask_of_subsumed()
    ensures { (v : Vocabulary) (m c : Disjunction) → Subsumes v m c → IsWithin (mask m.lits) (mask c.lits) }
{}
