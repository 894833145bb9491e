// Formulas are put together of parts that may not have been made. Each is put together in a function of its own, so that
// a level of a formula takes little stack.
ghost use Rattle.std.specs.Prelude.{◌≡◌, ◌++◌, ◌∷◌, [], Ok, Err, OnOk, IsOkAnd, MatchResult};
ghost use Rattle.fof_terms.specs.declared.form.Form.{And, Or, Imp, Iff};

use crate::form::Form;
use tptp_base::{Boxed, List, Memory};

/// Puts the formula at the end, if it was made.
#[inline(never)]
pub fn add(forms: &mut List<Form>, form: Result<Form, Memory>) -> Result<(), Memory>
    ensures { OnOk result (IsOkAnd form (λ form. forms.new ≡ forms.old ++ form ∷ [])) }
{
    forms.push(form?)?;
    Ok(())
}

/// The conjunction, if its members were made.
#[inline(never)]
pub fn conjunction(members: Result<List<Form>, Memory>) -> Result<Form, Memory>
    ensures { MatchResult members (λ forms. result ≡ Ok (And forms)) (λ error. result ≡ Err error) }
{
    Ok(Form::And(members?))
}

/// The disjunction, if its members were made.
#[inline(never)]
pub fn disjunction(members: Result<List<Form>, Memory>) -> Result<Form, Memory>
    ensures { MatchResult members (λ forms. result ≡ Ok (Or forms)) (λ error. result ≡ Err error) }
{
    Ok(Form::Or(members?))
}

/// The implication, if its right side was made.
#[inline(never)]
pub fn implication(left: Boxed<Form>, right: Result<Boxed<Form>, Memory>) -> Result<Form, Memory>
    ensures { MatchResult right (λ side. result ≡ Ok (Imp left side)) (λ error. result ≡ Err error) }
{
    Ok(Form::Imp(left, right?))
}

/// The equivalence, if its right side was made.
#[inline(never)]
pub fn equivalence(left: Boxed<Form>, right: Result<Boxed<Form>, Memory>) -> Result<Form, Memory>
    ensures { MatchResult right (λ side. result ≡ Ok (Iff left side)) (λ error. result ≡ Err error) }
{
    Ok(Form::Iff(left, right?))
}
