// What formulas denote.
ghost use Rattle.std.specs.Prelude.{◌≡◌, ◌+◌, ◌≤◌, length, take, drop, map, IfOk, OnOk, Ok, ◌∷◌, []};
ghost use Rattle.fof_terms.specs.declared.form.Form.{Not as not_of, And as and_of, Or as or_of};
ghost use Rattle.sort_check.specs.code.Outcomes.{Answers};
ghost use Rattle.sort_check.specs.Outcomes.{each, mapped, and_then};
ghost use Rattle.sort_check.specs.Sorting.{Extends};
ghost use Rattle.sort_check.specs.Denotation as spec;
ghost use Rattle.sort_check.specs.code.Denotation as spec_code;

use crate::binding::{bound_variables, close_to};
use crate::fault::{SortRule, Stop};
use crate::heads::{head, known};
use crate::names::Names;
use crate::room::with_room;
use crate::scope::Scope;
use crate::terms::{Sorted, denote_arguments, denote_term};
use fof_terms::{Form, Kind, Signature};
use std::alloc::Global;
use tptp_base::{BinOp, BoundVar, Boxed, List, Memory, Quant, STerm, Surface};

/// What a formula denotes.
#[cycle(form)]
#[tactic(auto, using(crate::proofs::Equations::form_equations))]
pub fn denote_form<'a>(
    form: &'a Surface,
    alloc: Global,
    declared: &Names,
    signature: &mut Signature,
    scope: &mut Scope<'a>,
) -> Result<Form, Stop>
    ensures value { Answers
        (spec.denoted_form (spec_code.setting declared.now scope.old) form.now scope.old.variables
        (spec_code.state signature.old scope.old)) result (spec_code.state signature.new scope.new) }
    ensures scope { OnOk result (scope.new ≡ record scope.old { bound = scope.new.bound }) }
    ensures keeps { Extends signature.old signature.new }
{
    match form {
        Surface::True => Ok(Form::And(List::new(alloc))),
        Surface::False => Ok(Form::Or(List::new(alloc))),
        Surface::Atom(name, args) => denote_atom(
            alloc,
            declared,
            signature,
            scope,
            name.as_slice(),
            args.as_slice(),
        ),
        Surface::Eq(left, right) => denote_equation(alloc, declared, signature, scope, left, right),
        Surface::Neq(left, right) => denote_inequation(
            alloc, declared, signature, scope, left, right,
        ),
        Surface::Not(body) => denote_negation(body.get(), alloc, declared, signature, scope),
        Surface::And(members) => denote_conjunction(
            members.as_slice(),
            alloc,
            declared,
            signature,
            scope,
        ),
        Surface::Or(members) => denote_disjunction(
            members.as_slice(),
            alloc,
            declared,
            signature,
            scope,
        ),
        Surface::Binary(operator, left, right) => {
            let left = denote_form(left.get(), alloc, declared, signature, scope)?;
            let left = Boxed::new(alloc, left)?;
            let right = denote_form(right.get(), alloc, declared, signature, scope)?;
            Ok(joined(alloc, *operator, left, right)?)
        }
        Surface::Bind(quant, variables, body) => {
            denote_bound(
                body.get(),
                alloc,
                declared,
                signature,
                scope,
                *quant,
                variables.as_slice(),
            )
        }
    }
}

// What the negation of a formula denotes.
#[cycle(form)]
#[inline(never)]
fn denote_negation<'a>(
    body: &'a Surface,
    alloc: Global,
    declared: &Names,
    signature: &mut Signature,
    scope: &mut Scope<'a>,
) -> Result<Form, Stop>
    ensures value { Answers
        (mapped not_of (spec.denoted_form (spec_code.setting declared.now scope.old) body.now scope.old.variables
        (spec_code.state signature.old scope.old))) result (spec_code.state signature.new scope.new) }
    ensures scope { OnOk result (scope.new ≡ record scope.old { bound = scope.new.bound }) }
    ensures keeps { Extends signature.old signature.new }
{
    let body = denote_form(body, alloc, declared, signature, scope)?;
    Ok(negation(alloc, body)?)
}

// What a conjunction denotes.
#[cycle(form)]
#[inline(never)]
fn denote_conjunction<'a>(
    members: &'a [Surface],
    alloc: Global,
    declared: &Names,
    signature: &mut Signature,
    scope: &mut Scope<'a>,
) -> Result<Form, Stop>
    ensures value { Answers
        (mapped and_of (each (λ place a.
        spec.denoted_form (spec_code.setting declared.now scope.old) a scope.old.variables) 0 members.now
        (spec_code.state signature.old scope.old))) result (spec_code.state signature.new scope.new) }
    ensures scope { OnOk result (scope.new ≡ record scope.old { bound = scope.new.bound }) }
    ensures keeps { Extends signature.old signature.new }
{
    Ok(Form::And(denote_members(members, alloc, declared, signature, scope)?))
}

// What a disjunction denotes.
#[cycle(form)]
#[inline(never)]
fn denote_disjunction<'a>(
    members: &'a [Surface],
    alloc: Global,
    declared: &Names,
    signature: &mut Signature,
    scope: &mut Scope<'a>,
) -> Result<Form, Stop>
    ensures value { Answers
        (mapped or_of (each (λ place a.
        spec.denoted_form (spec_code.setting declared.now scope.old) a scope.old.variables) 0 members.now
        (spec_code.state signature.old scope.old))) result (spec_code.state signature.new scope.new) }
    ensures scope { OnOk result (scope.new ≡ record scope.old { bound = scope.new.bound }) }
    ensures keeps { Extends signature.old signature.new }
{
    Ok(Form::Or(denote_members(members, alloc, declared, signature, scope)?))
}

// What the members of a conjunction or a disjunction denote.
#[cycle(form)]
fn denote_members<'a>(
    forms: &'a [Surface],
    alloc: Global,
    declared: &Names,
    signature: &mut Signature,
    scope: &mut Scope<'a>,
) -> Result<List<Form>, Stop>
    ensures value { Answers
        (each (λ place a.
        spec.denoted_form (spec_code.setting declared.now scope.old) a scope.old.variables) 0 forms.now
        (spec_code.state signature.old scope.old)) result (spec_code.state signature.new scope.new) }
    ensures scope { OnOk result (scope.new ≡ record scope.old { bound = scope.new.bound }) }
    ensures keeps { Extends signature.old signature.new }
{
    let mut found = with_room(alloc, forms.len())?;
    for form in forms {
        found.push(denote_form(form, alloc, declared, signature, scope)?)?;
    }
    Ok(found)
}

// What a formula under a quantifier denotes.
#[cycle(form)]
#[inline(never)]
fn denote_bound<'a>(
    body: &'a Surface,
    alloc: Global,
    declared: &Names,
    signature: &mut Signature,
    scope: &mut Scope<'a>,
    quant: Quant,
    variables: &'a [BoundVar],
) -> Result<Form, Stop>
    ensures value { Answers
        (spec_code.bound (spec_code.setting declared.now scope.old) quant variables.now body.now scope.old.variables
        (spec_code.state signature.old scope.old)) result (spec_code.state signature.new scope.new) }
    ensures scope { OnOk result (scope.new ≡ record scope.old { bound = scope.new.bound }) }
    ensures keeps { Extends signature.old signature.new }
{
    let outer = scope.len();
    let inner = bound_variables(alloc, signature, scope, variables)?;
    scope.open(alloc, inner)?;
    let body = denote_form(body, alloc, declared, signature, scope)?;
    Ok(close_to(alloc, quant, scope, outer, body)?)
}

// What an atom denotes.
#[inline(never)]
fn denote_atom(
    alloc: Global,
    declared: &Names,
    signature: &mut Signature,
    scope: &Scope<'_>,
    name: &[u8],
    args: &[STerm],
) -> Result<Form, Stop>
    ensures value { Answers
        (spec.beside scope.now.bound
        (spec.atom (spec_code.setting declared.now scope.now) scope.now.variables name.now args.now
        signature.old)) result (spec_code.state signature.new scope.now) }
    ensures keeps { Extends signature.old signature.new }
{
    let predicate = head(
        alloc,
        declared,
        signature,
        scope,
        name,
        Kind::Predicate,
        args,
        None,
    )?;
    let args = denote_arguments(args, alloc, declared, signature, scope, predicate)?;
    Ok(Form::Atom(predicate, args))
}

// What an equation denotes: both sides, then their sorts. Each side's place asks for the sort of the other, as far as
// it is known.
#[inline(never)]
fn denote_equation(
    alloc: Global,
    declared: &Names,
    signature: &mut Signature,
    scope: &Scope<'_>,
    left: &STerm,
    right: &STerm,
) -> Result<Form, Stop>
    ensures value { Answers
        (spec.beside scope.now.bound
        (spec.equation (spec_code.setting declared.now scope.now) scope.now.variables left.now right.now
        signature.old)) result (spec_code.state signature.new scope.now) }
    ensures keeps { Extends signature.old signature.new }
{
    let left = denote_left(left, alloc, declared, signature, scope, right)?;
    let right = denote_term(right, alloc, declared, signature, scope, Some(left.sort))?;
    if left.sort != right.sort {
        return Err(Stop::Rule(SortRule::WrongSort));
    }
    Ok(Form::Eq(left.term, right.term))
}

// What the left side of an equation denotes. For a variable it does not matter what its place asks for.
#[tactic(auto, using(crate::proofs::Equations::term_equations))]
fn denote_left(
    left: &STerm,
    alloc: Global,
    declared: &Names,
    signature: &mut Signature,
    scope: &Scope<'_>,
    right: &STerm,
) -> Result<Sorted, Stop>
    ensures value { Answers
        (spec.denoted_term (spec_code.setting declared.now scope.now) scope.now.variables left.now
        (spec.known_sort scope.now.variables signature.old right.now) signature.old) result signature.new }
    ensures keeps { Extends signature.old signature.new }
{
    match left {
        STerm::Var(_) => denote_term(left, alloc, declared, signature, scope, None),
        STerm::App(_, _) => {
            let asked = known(signature, scope, right);
            denote_term(left, alloc, declared, signature, scope, asked)
        }
    }
}

// What the negation of an equation denotes.
#[inline(never)]
fn denote_inequation(
    alloc: Global,
    declared: &Names,
    signature: &mut Signature,
    scope: &Scope<'_>,
    left: &STerm,
    right: &STerm,
) -> Result<Form, Stop>
    ensures value { Answers
        (mapped not_of (spec.beside scope.now.bound
        (spec.equation (spec_code.setting declared.now scope.now) scope.now.variables left.now right.now
        signature.old))) result (spec_code.state signature.new scope.now) }
    ensures keeps { Extends signature.old signature.new }
{
    let equation = denote_equation(alloc, declared, signature, scope, left, right)?;
    Ok(negation(alloc, equation)?)
}

/// The negation of a formula.
pub fn negation(alloc: Global, form: Form) -> Result<Form, Memory>
    ensures { IfOk result (λ negated. negated ≡ not_of form) }
{
    Ok(Form::Not(Boxed::new(alloc, form)?))
}

// A connective between two formulas.
fn joined(alloc: Global, operator: BinOp, left: Boxed<Form>, right: Form) -> Result<Form, Memory>
    ensures { IfOk result (λ whole. whole ≡ spec.joined operator left right) }
{
    match operator {
        BinOp::Imp => Ok(Form::Imp(left, Boxed::new(alloc, right)?)),
        BinOp::RevImp => Ok(Form::Imp(Boxed::new(alloc, right)?, left)),
        BinOp::Iff => Ok(Form::Iff(left, Boxed::new(alloc, right)?)),
        BinOp::Xor => {
            let right = Boxed::new(alloc, right)?;
            negation(alloc, Form::Iff(left, right))
        }
        BinOp::Nor => {
            let both = pair(alloc, left, right)?;
            negation(alloc, Form::Or(both))
        }
        BinOp::Nand => {
            let both = pair(alloc, left, right)?;
            negation(alloc, Form::And(both))
        }
    }
}

// The list of two.
fn pair(alloc: Global, left: Boxed<Form>, right: Form) -> Result<List<Form>, Memory>
    ensures { IfOk result (λ both. both ≡ left ∷ right ∷ []) }
{
    let mut both = List::new(alloc);
    both.push(left.into_inner())?;
    both.push(right)?;
    Ok(both)
}
