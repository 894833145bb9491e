//! Laws of what is pulled out of normal forms, shown by functions that do nothing.
ghost use Rattle.std.specs.Prelude.{◌≡◌, ◌<◌, nat_eq, ℕ, true, length};
ghost use Rattle.std.specs.List.{list_any};
ghost use Rattle.fof_terms.specs.declared.form.Form.{Form as Formula};
ghost use Rattle.clause_form.specs.Norm.{norm_of};
ghost use Rattle.flat_form.specs.Flat.{pulled, order_of};

/// In a normal form each variable of a quantifier that is pulled out stands in the body.
pub fn variables_stand()
    ensures { (a : Formula) → norm_of true a ≡ a → (k : ℕ) → k < length (pulled a).sorts
        → list_any (nat_eq k) (order_of (length (pulled a).sorts) (pulled a).body) ≡ true }
{}
