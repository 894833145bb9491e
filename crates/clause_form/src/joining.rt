ghost use Rattle.std.specs.Prelude.{◌≡◌, ◌<◌, ◌^◌, ◌++◌, ◌∷◌, ◌⊎◌, [], IfOk, OnErr, OnOk, MatchOption, not};
ghost use Rattle.std.specs.List.{list_any};
ghost use Rattle.fof_terms.specs.Sorts.{binder_depth};
ghost use Rattle.clause_form.specs.Norm.{node as node_of, members_of, ends, alone as alone_of, joined_flat};
ghost use Rattle.clause_form.specs.Norm.{signed as signed_of, quantified as quantified_of};

use fof_terms::{Form, SortId, Term, has_variable, instantiate};
use std::alloc::Global;
use tptp_base::{Boxed, List, Memory};

/// And of the formulas, or under minus Or.
pub fn node(positive: bool, members: List<Form>) -> Form
    ensures { result ≡ node_of positive members }
{
    if positive {
        Form::And(members)
    } else {
        Form::Or(members)
    }
}

/// The formula, or under minus its negation.
pub fn signed(alloc: Global, positive: bool, form: Form) -> Result<Form, Memory>
    ensures { IfOk result (λ made. made ≡ signed_of positive form) }
{
    if positive {
        Ok(form)
    } else {
        Ok(Form::Not(Boxed::new(alloc, form)?))
    }
}

/// A quantifier over the body, dropped where its variable doesn't stand in it: All, or under minus Ex.
pub fn quantified(alloc: Global, positive: bool, sort: SortId, body: Form) -> Result<Form, Memory>
    requires { binder_depth body < 2 ^ 32 }
    ensures { IfOk result (λ made. made ≡ quantified_of positive sort body) }
{
    if !has_variable(&body, 0) {
        return instantiate(alloc, &body, &Term::Var(0));
    }
    let body = Boxed::new(alloc, body)?;
    if positive {
        Ok(Form::All(sort, body))
    } else {
        Ok(Form::Ex(sort, body))
    }
}

/// The joined node of formulas none of which is a node of that sign: And, or under minus Or.
pub fn join_flat(alloc: Global, positive: bool, flat: List<Form>) -> Form
    ensures { result ≡ joined_flat positive flat }
{
    if one_ends(positive, flat.as_slice()) {
        return node(!positive, List::new(alloc));
    }
    alone(positive, flat)
}

/// Moves the members of a node of that sign to the end of the list, or the formula itself. Where memory runs out, the
/// list is as it was, or it is empty.
#[tactic(auto, using(crate::proofs::MemberKinds::members_equations))]
pub fn push_members(flat: &mut List<Form>, positive: bool, form: Form) -> Result<(), Memory>
    ensures ok { OnOk result (flat.new ≡ flat.old ++ members_of positive form) }
    ensures err { OnErr result ((flat.new ≡ flat.old) ⊎ (flat.new ≡ [])) }
{
    match form {
        Form::And(inner) => {
            if positive {
                append(flat, inner)?;
            } else {
                flat.push(Form::And(inner))?;
            }
        }
        Form::Or(inner) => {
            if positive {
                flat.push(Form::Or(inner))?;
            } else {
                append(flat, inner)?;
            }
        }
        Form::Atom(symbol, args) => flat.push(Form::Atom(symbol, args))?,
        Form::Eq(left, right) => flat.push(Form::Eq(left, right))?,
        Form::Not(body) => flat.push(Form::Not(body))?,
        Form::Imp(left, right) => flat.push(Form::Imp(left, right))?,
        Form::Iff(left, right) => flat.push(Form::Iff(left, right))?,
        Form::All(sort, body) => flat.push(Form::All(sort, body))?,
        Form::Ex(sort, body) => flat.push(Form::Ex(sort, body))?,
    }
    Ok(())
}

// Moves the formulas to the end of the list. Where memory runs out, nothing is known of what the list has, so it is
// emptied.
fn append(flat: &mut List<Form>, more: List<Form>) -> Result<(), Memory>
    ensures ok { OnOk result (flat.new ≡ flat.old ++ more) }
    ensures err { OnErr result (flat.new ≡ []) }
{
    match flat.append(more) {
        Ok(()) => Ok(()),
        Err(_) => {
            for _ in 0..flat.len() {
                let _ = flat.pop();
            }
            Err(Memory)
        }
    }
}

/// The members of a node of that sign; None for another formula.
#[tactic(auto, using(crate::proofs::MemberKinds::members_equations))]
pub fn own_members(positive: bool, form: &Form) -> Option<&[Form]>
    ensures { MatchOption result (members_of positive form.now ≡ form.now
        ∷ []) (λ inner. (form.now ≡ node_of positive inner.now) × (members_of positive form.now ≡ inner.now)) }
{
    match form {
        Form::And(inner) => {
            if positive {
                Some(inner.as_slice())
            } else {
                None
            }
        }
        Form::Or(inner) => {
            if positive {
                None
            } else {
                Some(inner.as_slice())
            }
        }
        Form::Atom(_, _) => None,
        Form::Eq(_, _) => None,
        Form::Not(_) => None,
        Form::Imp(_, _) => None,
        Form::Iff(_, _) => None,
        Form::All(_, _) => None,
        Form::Ex(_, _) => None,
    }
}

// Whether one of the formulas is falsehood, or under minus truth.
fn one_ends(positive: bool, forms: &[Form]) -> bool
    ensures { result ≡ list_any (ends positive) forms.now }
{
    for form in forms {
        if is_end(positive, form) {
            return true;
        }
    }
    false
}

/// Whether the formula is falsehood, or under minus truth.
#[tactic(auto, using(crate::proofs::MemberKinds::ends_equations))]
pub fn is_end(positive: bool, form: &Form) -> bool
    ensures { result ≡ ends positive form.now }
{
    match form {
        Form::And(inner) => !positive && inner.is_empty(),
        Form::Or(inner) => positive && inner.is_empty(),
        Form::Atom(_, _)
        | Form::Eq(_, _)
        | Form::Not(_)
        | Form::Imp(_, _)
        | Form::Iff(_, _)
        | Form::All(_, _)
        | Form::Ex(_, _) => false,
    }
}

// The node of the members, one alone being itself.
fn alone(positive: bool, flat: List<Form>) -> Form
    ensures { result ≡ alone_of positive flat }
{
    if flat.len() != 1 {
        return node(positive, flat);
    }
    let mut flat = flat;
    match flat.pop() {
        Some(form) => form,
        None => node(positive, flat),
    }
}
