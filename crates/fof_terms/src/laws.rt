//! Laws of lifting and instances, shown by functions that do nothing.
ghost use Rattle.std.specs.Prelude.{◌≡◌, ◌+◌, ℕ, []};
ghost use Rattle.fof_terms.specs.declared.form.Form.{Form as Formula};
ghost use Rattle.fof_terms.specs.declared.term.Term.{Term as Inner};
ghost use Rattle.fof_terms.specs.Lift.{lifted, lifted_term};
ghost use Rattle.fof_terms.specs.Instance.{instance_of, instance_at, instance_term};
ghost use Rattle.fof_terms.specs.Vocabulary.{Vocabulary};
ghost use Rattle.fof_terms.specs.Sorts.{Sorted};

/// Lifting and instances commute: a lift of an instance is the instance of the lift by the lifted term.
pub fn lift_of_instance()
    ensures { (a : Formula) (t : Inner) (by from : ℕ) →
        lifted by from (instance_of a t) ≡ instance_of (lifted by (from + 1) a) (lifted_term by from t) }
{}

/// A closed formula doesn't move.
pub fn lift_of_closed()
    ensures { (v : Vocabulary) (a : Formula) (by from : ℕ) → Sorted v [] a → lifted by from a ≡ a }
{}

/// An instance of an instance is the instance by the instantiated term.
pub fn instance_of_instance()
    ensures { (a : Formula) (t s : Inner) →
        instance_of (instance_of a t) s ≡ instance_of (instance_at s 1 a) (instance_term s 0 t) }
{}
