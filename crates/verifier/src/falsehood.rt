// Formulas that are falsehood.
ghost use Rattle.std.specs.Prelude.{◌≡◌, ◌↔◌, [], IsTrue};
ghost use Rattle.fof_terms.specs.declared.form.Form.{Or};
ghost use Rattle.verifier.specs.Report.{HasFalse};

use fof_terms::Form;

/// Whether some formula is falsehood.
pub fn has_false(forms: &[Form]) -> bool
    ensures { IsTrue result ↔ HasFalse forms.now }
{
    for form in forms {
        if is_false(form) {
            return true;
        }
    }
    false
}

/// Whether the formula is falsehood.
pub fn is_false(form: &Form) -> bool
    ensures { IsTrue result ↔ (form.now ≡ Or []) }
{
    match form {
        Form::Or(members) => members.is_empty(),
        _ => false,
    }
}
