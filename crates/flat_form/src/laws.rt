//! Laws of flat forms, shown by functions that do nothing.
ghost use Rattle.std.specs.Prelude.{◌≡◌, true};
ghost use Rattle.fof_terms.specs.declared.form.Form.{Form as Formula};
ghost use Rattle.clause_form.specs.Norm.{norm_of};
ghost use Rattle.flat_form.specs.Flat.{flat_of};

/// The flat form of a flat form is itself.
pub fn flat_of_flat()
    ensures { (a : Formula) → flat_of (flat_of a) ≡ flat_of a }
{}

/// A flat form is its own normal form.
pub fn flat_is_normal()
    ensures { (a : Formula) → norm_of true (flat_of a) ≡ flat_of a }
{}

/// Formulas with one normal form have one flat form.
pub fn one_flat_of_one_norm()
    ensures { (a b : Formula) → norm_of true a ≡ norm_of true b → flat_of a ≡ flat_of b }
{}
