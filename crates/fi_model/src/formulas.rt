// What formulas say of symbols.
ghost use Rattle.std.specs.Prelude.{◌≡◌, Some, IfOk, map};
ghost use Rattle.std.specs.Option.{option_map};
ghost use Rattle.fi_model.specs.Sentences as spec;

use crate::sentence::{Entry, Value};
use crate::terms::{applied, element};
use fof_terms::Kind;
use std::alloc::Global;
use tptp_base::{BinOp, List, Memory, STerm, Surface};

/// What a formula says of a symbol of that kind; or what each member of a conjunction says, where each says something.
#[tactic(auto, using(crate::proofs::Layers::form_layers))]
pub fn conjuncts(
    alloc: Global,
    kind: Kind,
    form: &Surface,
) -> Result<Option<List<Entry<'_>>>, Memory>
    ensures { IfOk result (λ found. found ≡ spec.conjuncts kind form.now) }
{
    match form {
        Surface::And(members) => entries(alloc, kind, members.as_slice()),
        Surface::True
        | Surface::False
        | Surface::Atom(_, _)
        | Surface::Eq(_, _)
        | Surface::Neq(_, _)
        | Surface::Not(_)
        | Surface::Or(_)
        | Surface::Binary(_, _, _)
        | Surface::Bind(_, _, _) => one_entry(alloc, kind, form),
    }
}

// The entry that a formula is, as a list.
fn one_entry(alloc: Global, kind: Kind, form: &Surface) -> Result<Option<List<Entry<'_>>>, Memory>
    ensures { IfOk result (λ found. found ≡ option_map spec.alone (spec.entry kind form.now)) }
{
    match entry(kind, form) {
        Some(entry) => {
            let mut entries = List::new(alloc);
            entries.push(entry)?;
            Ok(Some(entries))
        }
        None => Ok(None),
    }
}

// The entries that formulas are, where each is one.
fn entries(alloc: Global, kind: Kind, forms: &[Surface]) -> Result<Option<List<Entry<'_>>>, Memory>
    ensures { IfOk result (λ found. found ≡ spec.all_there (map (spec.entry kind) forms.now)) }
{
    let mut found = List::from_vec(Vec::with_capacity(alloc, forms.len())?);
    for form in forms {
        match entry(kind, form) {
            Some(entry) => found.push(entry)?,
            None => return Ok(None),
        }
    }
    Ok(Some(found))
}

// What the formula says of a symbol of that kind.
fn entry(kind: Kind, form: &Surface) -> Option<Entry<'_>>
    ensures { result ≡ spec.entry kind form.now }
{
    match kind {
        Kind::Function => equation(form),
        Kind::Predicate => literal(form),
    }
}

// What an equation says of a function.
#[tactic(auto, using(crate::proofs::Layers::form_layers))]
fn equation(form: &Surface) -> Option<Entry<'_>>
    ensures { result ≡ spec.equation form.now }
{
    match form {
        Surface::Eq(left, right) => function_entry(left, right),
        Surface::True
        | Surface::False
        | Surface::Atom(_, _)
        | Surface::Neq(_, _)
        | Surface::Not(_)
        | Surface::And(_)
        | Surface::Or(_)
        | Surface::Binary(_, _, _)
        | Surface::Bind(_, _, _) => None,
    }
}

// What an equation of these sides says of a function.
fn function_entry<'a>(left: &'a STerm, right: &'a STerm) -> Option<Entry<'a>>
    ensures { result ≡ spec.function_entry left.now right.now }
{
    match element(right) {
        Some(element) => function_at(Value::Element(element), left),
        None => None,
    }
}

// The entry of the function that the term applies.
#[tactic(auto, using(crate::proofs::Layers::term_layers))]
fn function_at<'a>(value: Value<'a>, term: &'a STerm) -> Option<Entry<'a>>
    ensures { result ≡ spec.function_at value.entry term.now }
{
    match term {
        STerm::Var(_) => None,
        STerm::App(word, args) => applied(value, word.as_slice(), args.as_slice()),
    }
}

// What a formula says of a predicate.
#[tactic(auto, using(crate::proofs::Layers::form_layers))]
fn literal(form: &Surface) -> Option<Entry<'_>>
    ensures { result ≡ spec.literal form.now }
{
    match form {
        Surface::Atom(word, args) => applied(Value::Truth(true), word.as_slice(), args.as_slice()),
        Surface::Not(form) => atom(false, form.get()),
        Surface::Binary(op, left, right) => compared(*op, left.get(), right.get()),
        Surface::True
        | Surface::False
        | Surface::Eq(_, _)
        | Surface::Neq(_, _)
        | Surface::And(_)
        | Surface::Or(_)
        | Surface::Bind(_, _, _) => None,
    }
}

// What an atom says, where it is given this truth.
#[tactic(auto, using(crate::proofs::Layers::form_layers))]
fn atom(truth: bool, form: &Surface) -> Option<Entry<'_>>
    ensures { result ≡ spec.atom truth form.now }
{
    match form {
        Surface::Atom(word, args) => applied(Value::Truth(truth), word.as_slice(), args.as_slice()),
        Surface::True
        | Surface::False
        | Surface::Eq(_, _)
        | Surface::Neq(_, _)
        | Surface::Not(_)
        | Surface::And(_)
        | Surface::Or(_)
        | Surface::Binary(_, _, _)
        | Surface::Bind(_, _, _) => None,
    }
}

// What an atom says that is compared with truth or falsehood.
fn compared<'a>(op: BinOp, left: &'a Surface, right: &Surface) -> Option<Entry<'a>>
    ensures { result ≡ spec.compared op left.now right.now }
{
    match op {
        BinOp::Iff => match truth(right) {
            Some(truth) => atom(truth, left),
            None => None,
        },
        BinOp::Imp | BinOp::RevImp | BinOp::Xor | BinOp::Nor | BinOp::Nand => None,
    }
}

// The truth value that a formula is.
#[tactic(auto, using(crate::proofs::Layers::form_layers))]
fn truth(form: &Surface) -> Option<bool>
    ensures { result ≡ spec.truth form.now }
{
    match form {
        Surface::True => Some(true),
        Surface::False => Some(false),
        Surface::Atom(_, _)
        | Surface::Eq(_, _)
        | Surface::Neq(_, _)
        | Surface::Not(_)
        | Surface::And(_)
        | Surface::Or(_)
        | Surface::Binary(_, _, _)
        | Surface::Bind(_, _, _) => None,
    }
}
