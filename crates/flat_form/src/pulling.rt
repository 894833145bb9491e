//! Universal quantifiers are pulled out of a formula. One walk counts them, and a second one makes the body, in which each
//! variable gets its place among all of them at once.
ghost use Rattle.std.specs.Prelude.{◌≡◌, ◌<◌, ◌≤◌, ◌^◌, ◌++◌, map, length, IfOk, OnOk};
ghost use Rattle.clause_form.specs.Norm.{node as node_of};
ghost use Rattle.clause_form.specs.Sizes.{norm_size_of};
ghost use Rattle.fof_terms.specs.declared.form.Form.{All};
ghost use Rattle.flat_form.specs.Flat.{pulled, kept, pull_reach, sorts_of};
ghost use Rattle.flat_form.specs.code.Numbers.{placed_body, HasPlaces};

use crate::numbering::renumber;
use clause_form::{join_flat, push_members};
use fof_terms::{Form, SortId};
use std::alloc::Global;
use tptp_base::{List, Memory};

/// The sorts of the quantifiers that are pulled out, the first outermost, and the body in which their variables are bound,
/// the last being variable 0.
#[derive(Drop)]
pub struct Pulled {
    pub sorts: List<SortId>,
    pub body: Form,
}

/// What is pulled out of a normal form or of a part of one.
pub fn pull(alloc: Global, form: &Form) -> Result<Pulled, Memory>
    requires size { norm_size_of form.now ≤ 100000 }
    requires room { pull_reach form.now < 2 ^ 32 }
    ensures sorts { IfOk result (λ made. made.sorts ≡ (pulled form.now).sorts) }
    ensures body { IfOk result (λ made. made.body ≡ (pulled form.now).body) }
{
    let total = count(form);
    let mut places = List::new(alloc);
    let mut sorts = List::new(alloc);
    let body = pull_in(alloc, form, total, &mut places, &mut sorts)?;
    Ok(Pulled { sorts, body })
}

// How many quantifiers are pulled out.
#[tactic(auto, using(crate::proofs::PulledFacts::count_equations))]
#[cycle(count)]
fn count(form: &Form) -> u32
    requires { norm_size_of form.now ≤ 100000 }
    ensures { result ≡ length (pulled form.now).sorts }
{
    match form {
        Form::And(members) => count_all(true, members.as_slice()),
        Form::Or(members) => count_all(false, members.as_slice()),
        Form::All(_, body) => count(body.get()) + 1,
        Form::Atom(_, _) => 0,
        Form::Eq(_, _) => 0,
        Form::Not(_) => 0,
        Form::Imp(_, _) => 0,
        Form::Iff(_, _) => 0,
        Form::Ex(_, _) => 0,
    }
}

// How many are pulled out of a conjunction, or under minus a disjunction.
#[cycle(count)]
fn count_all(kind: bool, forms: &[Form]) -> u32
    requires { norm_size_of (node_of kind forms.now) ≤ 100000 }
    ensures { result ≡ length (sorts_of (map pulled forms.now)) }
{
    let mut total: u32 = 0;
    for form in forms {
        total += count(form);
    }
    total
}

// The body over `total` variables. The variables of the quantifiers around the formula have these places, and those that
// are pulled out of it get the next ones.
#[tactic(auto, using(crate::proofs::PulledFacts::kept_equations))]
#[cycle(pull_in)]
fn pull_in(
    alloc: Global,
    form: &Form,
    total: u32,
    places: &mut List<u32>,
    sorts: &mut List<SortId>,
) -> Result<Form, Memory>
    requires { HasPlaces total places.old sorts.old form.now }
    ensures sorts { OnOk result (sorts.new ≡ sorts.old ++ (pulled form.now).sorts) }
    ensures places { OnOk result (places.new ≡ places.old) }
    ensures body { IfOk result (λ made. made ≡ placed_body places.old total (length sorts.old) form.now) }
{
    match form {
        Form::And(members) => pull_node(alloc, true, members.as_slice(), total, places, sorts),
        Form::Or(members) => pull_node(alloc, false, members.as_slice(), total, places, sorts),
        Form::All(sort, body) => pull_quantified(alloc, *sort, body.get(), total, places, sorts),
        Form::Atom(_, _) => keep(alloc, form, total, places, sorts),
        Form::Eq(_, _) => keep(alloc, form, total, places, sorts),
        Form::Not(_) => keep(alloc, form, total, places, sorts),
        Form::Imp(_, _) => keep(alloc, form, total, places, sorts),
        Form::Iff(_, _) => keep(alloc, form, total, places, sorts),
        Form::Ex(_, _) => keep(alloc, form, total, places, sorts),
    }
}

// A formula out of which nothing is pulled.
fn keep(
    alloc: Global,
    form: &Form,
    total: u32,
    places: &mut List<u32>,
    sorts: &mut List<SortId>,
) -> Result<Form, Memory>
    requires places { HasPlaces total places.old sorts.old form.now }
    requires kept { pulled form.now ≡ kept form.now }
    ensures sorts { OnOk result (sorts.new ≡ sorts.old ++ (pulled form.now).sorts) }
    ensures places { OnOk result (places.new ≡ places.old) }
    ensures body { IfOk result (λ made. made ≡ placed_body places.old total (length sorts.old) form.now) }
{
    renumber(alloc, places.as_slice(), total, form, 0)
}

// The body of a universal quantifier.
#[cycle(pull_in)]
fn pull_quantified(
    alloc: Global,
    sort: SortId,
    body: &Form,
    total: u32,
    places: &mut List<u32>,
    sorts: &mut List<SortId>,
) -> Result<Form, Memory>
    requires { HasPlaces total places.old sorts.old (All sort body.now) }
    ensures sorts { OnOk result (sorts.new ≡ sorts.old ++ (pulled (All sort body.now)).sorts) }
    ensures places { OnOk result (places.new ≡ places.old) }
    ensures body { IfOk result (λ made. made
        ≡ placed_body places.old total (length sorts.old) (All sort body.now)) }
{
    places.push(total - 1 - sorts.len() as u32)?;
    sorts.push(sort)?;
    let made = pull_in(alloc, body, total, places, sorts)?;
    let _ = places.pop();
    Ok(made)
}

// The body of a conjunction, or under minus of a disjunction.
#[cycle(pull_in)]
fn pull_node(
    alloc: Global,
    kind: bool,
    forms: &[Form],
    total: u32,
    places: &mut List<u32>,
    sorts: &mut List<SortId>,
) -> Result<Form, Memory>
    requires { HasPlaces total places.old sorts.old (node_of kind forms.now) }
    ensures sorts { OnOk result (sorts.new ≡ sorts.old ++ (pulled (node_of kind forms.now)).sorts) }
    ensures places { OnOk result (places.new ≡ places.old) }
    ensures body { IfOk result (λ made. made
        ≡ placed_body places.old total (length sorts.old) (node_of kind forms.now)) }
{
    let mut flat = List::new(alloc);
    for form in forms {
        let body = pull_in(alloc, form, total, places, sorts)?;
        push_members(&mut flat, kind, body)?;
    }
    Ok(join_flat(alloc, kind, flat))
}
