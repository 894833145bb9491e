// The sentences of a model's items.
ghost use Rattle.std.specs.Prelude.{◌≡◌, Ok, IfOk, IfErr, OnOk};
ghost use Rattle.fi_model.specs.code.Adding.{AddsSentence};
ghost use Rattle.fi_model.specs.code.Shapes.{RefusesShape};
ghost use Rattle.fi_model.specs.Sentences as spec;

use crate::bounds::domain;
use crate::distinct::is_distinct;
use crate::fault::ModelFault;
use crate::formulas::conjuncts;
use crate::sentence::{Sentence, What};
use fof_terms::Kind;
use std::alloc::Global;
use tptp_base::{Annotated, Body, Item, Lang, List, Memory, Name, Role, Surface};

/// The sentences of the items, or the place of the first item that is none.
pub fn sentences(alloc: Global, items: &[Item]) -> Result<List<Sentence<'_>>, ModelFault>
    ensures all { IfOk result (λ found. spec.sentences items.now ≡ Ok found) }
    ensures fault { IfErr result (λ fault. RefusesShape (spec.sentences items.now) fault) }
{
    let mut found = List::new(alloc);
    for item in items {
        add_sentence(alloc, item, &mut found)?;
    }
    Ok(found)
}

// Adds the sentence of an item, if it has one.
fn add_sentence<'a>(
    alloc: Global,
    item: &'a Item,
    found: &mut List<Sentence<'a>>,
) -> Result<(), ModelFault>
    ensures added { OnOk result (AddsSentence (spec.item_sentence item.now) found.old found.new) }
    ensures fault { IfErr result (λ fault. RefusesShape (spec.item_sentence item.now) fault) }
{
    match item_sentence(alloc, item)? {
        Some(sentence) => {
            found.push(sentence)?;
            Ok(())
        }
        None => Ok(()),
    }
}

// The sentence of an item, none for a comment, or the place of what is no sentence.
fn item_sentence(alloc: Global, item: &Item) -> Result<Option<Sentence<'_>>, ModelFault>
    ensures all { IfOk result (λ found. spec.item_sentence item.now ≡ Ok found) }
    ensures fault { IfErr result (λ fault. RefusesShape (spec.item_sentence item.now) fault) }
{
    match item {
        Item::Comment(_) => Ok(None),
        Item::Include(include) => Err(ModelFault::Shape(include.place)),
        Item::Formula(formula) => {
            let formula = formula.get();
            match sentence(alloc, formula)? {
                Some(sentence) => Ok(Some(sentence)),
                None => Err(ModelFault::Shape(formula.place)),
            }
        }
    }
}

// The sentence that a formula is.
fn sentence(alloc: Global, formula: &Annotated) -> Result<Option<Sentence<'_>>, Memory>
    ensures { IfOk result (λ found. found ≡ spec.sentence formula.now) }
{
    if !is_quantified(formula.lang) || !is_name(&formula.name) {
        return Ok(None);
    }
    match body_says(alloc, formula.role, &formula.body)? {
        Some(what) => Ok(Some(Sentence {
            place: formula.place,
            name: formula.name.copy(alloc)?,
            what,
        })),
        None => Ok(None),
    }
}

// Whether formulas of the language have quantifiers.
fn is_quantified(lang: Lang) -> bool
    ensures { result ≡ spec.is_quantified lang }
{
    match lang {
        Lang::Cnf | Lang::Tcf => false,
        Lang::Fof | Lang::Tff => true,
    }
}

// Whether the name is no distinct object.
fn is_name(name: &Name) -> bool
    ensures { result ≡ spec.is_name name.now }
{
    match name {
        Name::Word(word) => !is_distinct(word.as_slice()),
        Name::Integer(_) => true,
    }
}

// What the body of a formula of this role says.
fn body_says(alloc: Global, role: Role, body: &Body) -> Result<Option<What<'_>>, Memory>
    ensures { IfOk result (λ found. found ≡ spec.body_says role body.now) }
{
    match body {
        Body::Logic(form) => said_by(alloc, role, form),
        Body::Typing(_) => Ok(None),
    }
}

// What a formula of this role says.
fn said_by(alloc: Global, role: Role, form: &Surface) -> Result<Option<What<'_>>, Memory>
    ensures { IfOk result (λ found. found ≡ spec.said_by role form.now) }
{
    match role {
        Role::FiDomain => said_domain(alloc, form),
        Role::FiFunctors => said_entries(alloc, Kind::Function, form),
        Role::FiPredicates => said_entries(alloc, Kind::Predicate, form),
        Role::Axiom
        | Role::Hypothesis
        | Role::Definition
        | Role::Assumption
        | Role::Lemma
        | Role::Theorem
        | Role::Corollary
        | Role::Conjecture
        | Role::NegatedConjecture
        | Role::Plain
        | Role::Typing
        | Role::Unknown => Ok(None),
    }
}

// What a formula says of a domain.
fn said_domain(alloc: Global, form: &Surface) -> Result<Option<What<'_>>, Memory>
    ensures { IfOk result (λ found. found ≡ spec.said_domain form.now) }
{
    match domain(alloc, form)? {
        Some(domain) => Ok(Some(What::Domain(domain))),
        None => Ok(None),
    }
}

// What a formula says of symbols of that kind.
fn said_entries(alloc: Global, kind: Kind, form: &Surface) -> Result<Option<What<'_>>, Memory>
    ensures { IfOk result (λ found. found ≡ spec.said_entries kind form.now) }
{
    match conjuncts(alloc, kind, form)? {
        Some(entries) => Ok(Some(What::Entries(entries))),
        None => Ok(None),
    }
}
