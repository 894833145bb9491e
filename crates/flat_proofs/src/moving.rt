//! Proofs between a normal form and the quantifiers that are pulled out of it over the rest.
ghost use Rattle.std.specs.Prelude.{◌≡◌, ◌≤◌, true, false, map, length, IfOk, Bool, ℕ};
ghost use Rattle.clause_form.specs.Norm.{node as node_of};
ghost use Rattle.clause_form.specs.Sizes.{norm_size_of};
ghost use Rattle.fof_terms.specs.declared.form.Form.{All};
ghost use Rattle.flat_form.specs.Flat.{kept as kept_whole};
ghost use Rattle.flat_proofs.specs.code.Leading.{Leads};
ghost use Rattle.flat_proofs.specs.code.Loose.{loose, closed_of};
ghost use Rattle.flat_proofs.specs.code.Members.{seen, bare, room_of, IsSpacious};
ghost use Rattle.flat_proofs.specs.code.Moving.{AreMoved, IsLed};

use crate::halving::gather;
use crate::leading::{chained, or_same};
use crate::linking::link;
use crate::members::{bodies_of_all, closed, closed_all, sorts_of_all};
use clause_form::node;
use derive_kit::{Part, all_e, all_i, hyp, imp_e, imp_i};
use flat_form::Pulled;
use fof_terms::{Form, SortId, Term, copy_all, equal_all};
use kernel::Proof;
use std::alloc::Global;
use tptp_base::{Boxed, List, Memory};

// What is pulled out of a formula, with the bodies of members in nodes that aren't joined, and the proof between the formula
// and the quantifiers over the body. There is none where that is the formula itself.
#[derive(Drop)]
pub(crate) struct Moved {
    pub(crate) pulled: Pulled,
    pub(crate) part: Option<Part>,
}

// Whether a quantifier may be pulled out of the formula.
#[cycle(pulls)]
fn pulls(form: &Form) -> bool
    ensures { result ≡ false → loose form.now ≡ kept_whole form.now }
{
    match form {
        Form::And(members) => any_pulls(true, members.as_slice()),
        Form::Or(members) => any_pulls(false, members.as_slice()),
        Form::All(_, _) => true,
        Form::Atom(_, _) => false,
        Form::Eq(_, _) => false,
        Form::Not(_) => false,
        Form::Imp(_, _) => false,
        Form::Iff(_, _) => false,
        Form::Ex(_, _) => false,
    }
}

// Whether it may be pulled out of one of the members of a conjunction, or under minus of a disjunction.
#[cycle(pulls)]
fn any_pulls(kind: bool, forms: &[Form]) -> bool
    ensures { result ≡ false → loose (node_of kind forms.now) ≡ kept_whole (node_of kind forms.now) }
{
    for form in forms {
        if pulls(form) {
            return true;
        }
    }
    false
}

// What is pulled out of the formula.
#[cycle(out_of)]
pub(crate) fn out_of(alloc: Global, forth: bool, form: &Form) -> Result<Moved, Memory>
    requires size { norm_size_of form.now ≤ 100000 }
    requires spacious { IsSpacious form.now }
    ensures sorts { IfOk result (λ made. made.pulled.sorts ≡ (loose form.now).sorts) }
    ensures body { IfOk result (λ made. made.pulled.body ≡ (loose form.now).body) }
    ensures part { IfOk result (λ made. IsLed forth form.now made.part) }
{
    if !pulls(form) {
        return kept(alloc, form);
    }
    match form {
        Form::And(members) => out_of_members(alloc, forth, true, members.as_slice()),
        Form::Or(members) => out_of_members(alloc, forth, false, members.as_slice()),
        Form::All(sort, body) => out_of_body(alloc, forth, *sort, body.get()),
        Form::Atom(_, _) => kept(alloc, form),
        Form::Eq(_, _) => kept(alloc, form),
        Form::Not(_) => kept(alloc, form),
        Form::Imp(_, _) => kept(alloc, form),
        Form::Iff(_, _) => kept(alloc, form),
        Form::Ex(_, _) => kept(alloc, form),
    }
}

// A formula out of which nothing is pulled.
fn kept(alloc: Global, form: &Form) -> Result<Moved, Memory>
    requires { loose form.now ≡ kept_whole form.now }
    ensures sorts { IfOk result (λ made. made.pulled.sorts ≡ (loose form.now).sorts) }
    ensures body { IfOk result (λ made. made.pulled.body ≡ (loose form.now).body) }
    ensures part { IfOk result (λ made. (forth : Bool) → IsLed forth form.now made.part) }
{
    let sorts = List::new(alloc);
    let body = form.copy(alloc)?;
    Ok(Moved {
        pulled: Pulled { sorts, body },
        part: None,
    })
}

// What is pulled out of a universal quantifier over the formula.
#[cycle(out_of)]
fn out_of_body(alloc: Global, forth: bool, sort: SortId, form: &Form) -> Result<Moved, Memory>
    requires size { norm_size_of (All sort form.now) ≤ 100000 }
    requires spacious { IsSpacious (All sort form.now) }
    ensures sorts { IfOk result (λ made. made.pulled.sorts ≡ (loose (All sort form.now)).sorts) }
    ensures body { IfOk result (λ made. made.pulled.body ≡ (loose (All sort form.now)).body) }
    ensures part { IfOk result (λ made. IsLed forth (All sort form.now) made.part) }
{
    let Moved { pulled, part } = out_of(alloc, forth, form)?;
    let part = under_all(alloc, forth, sort, form, &pulled, part)?;
    let mut sorts = List::new(alloc);
    sorts.push(sort)?;
    sorts.append(pulled.sorts)?;
    let body = pulled.body;
    Ok(Moved {
        pulled: Pulled { sorts, body },
        part,
    })
}

// The proof under the quantifier, by that for the formula.
fn under_all(
    alloc: Global,
    forth: bool,
    sort: SortId,
    form: &Form,
    pulled: &Pulled,
    part: Option<Part>,
) -> Result<Option<Part>, Memory>
    requires size { norm_size_of (All sort form.now) ≤ 100000 }
    requires sorts { pulled.now.sorts ≡ (loose form.now).sorts }
    requires body { pulled.now.body ≡ (loose form.now).body }
    requires part { IsLed forth form.now part }
    ensures { IfOk result (λ made. IsLed forth (All sort form.now) made) }
{
    let Some(part) = part else {
        return Ok(None);
    };
    let own = all_e(alloc, Term::Var(0), hyp(alloc, 0)?)?;
    let all = all_i(alloc, sort, imp_e(alloc, part, own)?)?;
    let from = source(alloc, forth, form, pulled)?;
    Ok(Some(imp_i(alloc, Form::All(sort, from), all)?))
}

// The formula that the proof goes from: the formula itself, or back what is pulled out of it.
fn source(alloc: Global, forth: bool, form: &Form, pulled: &Pulled) -> Result<Boxed<Form>, Memory>
    ensures forth { IfOk result (λ made. forth ≡ true → made ≡ form.now) }
    ensures back { IfOk result (λ made. forth ≡ false → made ≡ closed_of (seen pulled.now)) }
{
    if forth {
        return Ok(Boxed::new(alloc, form.copy(alloc)?)?);
    }
    closed(alloc, pulled)
}

// What is pulled out of a conjunction, or under minus out of a disjunction.
#[cycle(out_of)]
fn out_of_members(alloc: Global, forth: bool, kind: bool, forms: &[Form]) -> Result<Moved, Memory>
    requires size { norm_size_of (node_of kind forms.now) ≤ 100000 }
    requires spacious { IsSpacious (node_of kind forms.now) }
    ensures sorts { IfOk result (λ made. made.pulled.sorts ≡ (loose (node_of kind forms.now)).sorts) }
    ensures body { IfOk result (λ made. made.pulled.body ≡ (loose (node_of kind forms.now)).body) }
    ensures part { IfOk result (λ made. IsLed forth (node_of kind forms.now) made.part) }
{
    let mut members = List::new(alloc);
    let mut parts = List::new(alloc);
    for number in 0..forms.len() {
        let form = &forms[number];
        let Moved { pulled, part } = out_of(alloc, forth, form)?;
        members.push(pulled)?;
        parts.push(or_same(alloc, form, part)?.into_inner())?;
    }
    put_together(alloc, forth, kind, forms, members.as_slice(), parts)
}

// What is pulled out of the node, by what is pulled out of the members and the proofs for them.
fn put_together(
    alloc: Global,
    forth: bool,
    kind: bool,
    forms: &[Form],
    members: &[Pulled],
    parts: List<Proof>,
) -> Result<Moved, Memory>
    requires size { norm_size_of (node_of kind forms.now) ≤ 100000 }
    requires spacious { IsSpacious (node_of kind forms.now) }
    requires members { map seen members.now ≡ map bare (map loose forms.now) }
    requires parts { AreMoved forth (room_of (node_of kind forms.now)) forms.now parts }
    ensures sorts { IfOk result (λ made. made.pulled.sorts ≡ (loose (node_of kind forms.now)).sorts) }
    ensures body { IfOk result (λ made. made.pulled.body ≡ (loose (node_of kind forms.now)).body) }
    ensures part { IfOk result (λ made. IsLed forth (node_of kind forms.now) made.part) }
{
    let sorts = sorts_of_all(alloc, members)?;
    let bodies = bodies_of_all(alloc, members, sorts.len())?;
    let all = closed_all(alloc, members)?;
    let gathered = gather(
        alloc,
        kind,
        forth,
        members,
        sorts.as_slice(),
        bodies.as_slice(),
        all.as_slice(),
    )?;
    let linked = link_or_none(alloc, kind, forth, forms, all.as_slice(), parts)?;
    let pulled = Pulled {
        sorts,
        body: node(kind, bodies),
    };
    let first = Boxed::new(alloc, node(kind, copy_all(alloc, forms)?))?;
    let last = closed(alloc, &pulled)?;
    let part = chained(
        alloc,
        forth,
        first.get(),
        last.get(),
        linked,
        Some(gathered),
    )?;
    Ok(Moved { pulled, part })
}

// Between the node of the formulas and that of the closed ones, if these aren't the same.
fn link_or_none(
    alloc: Global,
    kind: bool,
    forth: bool,
    forms: &[Form],
    closed: &[Form],
    parts: List<Proof>,
) -> Result<Option<Part>, Memory>
    requires few { length forms.now ≤ 100000 }
    requires closed { closed.now ≡ map closed_of (map loose forms.now) }
    requires parts { (n : ℕ) × AreMoved forth n forms.now parts }
    ensures { IfOk result (λ made. (n : ℕ) → AreMoved forth n forms.now parts
        → Leads forth n made (node_of kind forms.now) (node_of kind closed.now)) }
{
    if equal_all(forms, closed) {
        return Ok(None);
    }
    Ok(Some(link(alloc, kind, forth, forms, closed, parts)?))
}
