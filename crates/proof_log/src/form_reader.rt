// Forms are read. The room is how deep trees may still nest. Each function has few values of its own, since as many
// calls of it may be open as trees may nest.
ghost use Rattle.proof_log.specs.code.ReadWords.{listed, head};
ghost use Rattle.proof_log.specs.code.Names.{form_name, form_names};
ghost use Rattle.proof_log.specs.code.ReadTrees as spec;
ghost use Rattle.proof_log.specs.code.Outcomes.{Reads};

use crate::cursor::Cursor;
use crate::name::FormName;
use crate::room::{add, list_for};
use crate::stop::Stop;
use crate::term_reader::{term, terms};
use crate::words::{deep_head, head, large, small};
use fof_terms::Form;
use std::alloc::Global;
use tptp_base::{Boxed, List};

/// A form.
#[cycle(form)]
#[tactic(auto, unfolding(crate::specs::code::ReadTrees::form))]
pub fn form(alloc: Global, text: &mut Cursor<'_>, room: usize) -> Result<Boxed<Form>, Stop>
    ensures { Reads (spec.form room text.old) result text.new }
{
    if room == 0 {
        Err(deep_head::<FormName>(text))
    } else {
        form_within(alloc, text, room - 1)
    }
}

// A form whose parts have this room.
#[cycle(form)]
fn form_within(alloc: Global, text: &mut Cursor<'_>, room: usize) -> Result<Boxed<Form>, Stop>
    ensures { Reads (spec.behind (head form_name form_names)
        (spec.form_by (spec.term room) (spec.form room)) text.old) result text.new }
{
    let name = head(text)?;
    form_of(alloc, text, room, name)
}

// The form of this name.
#[cycle(form)]
fn form_of(
    alloc: Global,
    text: &mut Cursor<'_>,
    room: usize,
    name: FormName,
) -> Result<Boxed<Form>, Stop>
    ensures { Reads (spec.form_by (spec.term room) (spec.form room) name text.old) result text.new }
{
    match name {
        FormName::Atom => atom(alloc, text, room),
        FormName::Eq => equation(alloc, text, room),
        FormName::Not => negation(alloc, text, room),
        FormName::And => conjunction(alloc, text, room),
        FormName::Or => disjunction(alloc, text, room),
        FormName::Imp => implication(alloc, text, room),
        FormName::Iff => equivalence(alloc, text, room),
        FormName::All => for_all(alloc, text, room),
        FormName::Ex => exists(alloc, text, room),
    }
}

/// How many forms there are, and the forms.
#[inline(never)]
#[cycle(form)]
#[tactic(auto, unfolding(crate::specs::code::ReadWords::listed))]
pub fn forms(alloc: Global, text: &mut Cursor<'_>, room: usize) -> Result<List<Form>, Stop>
    ensures { Reads (listed (spec.form room) text.old) result text.new }
{
    let count = large(text)?;
    let mut found = list_for(alloc, count)?;
    for _ in 0..count {
        let next = form(alloc, text, room)?;
        add(&mut found, next)?;
    }
    Ok(found)
}

#[inline(never)]
fn atom(alloc: Global, text: &mut Cursor<'_>, room: usize) -> Result<Boxed<Form>, Stop>
    ensures { Reads (spec.form_by (spec.term room) (spec.form room) FormName.Atom text.old) result text.new }
{
    let symbol = small(text)?;
    let args = terms(alloc, text, room)?;
    Ok(Boxed::new(alloc, Form::Atom(symbol, args))?)
}

#[inline(never)]
fn equation(alloc: Global, text: &mut Cursor<'_>, room: usize) -> Result<Boxed<Form>, Stop>
    ensures { Reads (spec.form_by (spec.term room) (spec.form room) FormName.Eq text.old) result text.new }
{
    let left = term(alloc, text, room)?;
    let right = term(alloc, text, room)?;
    Ok(Boxed::new(alloc, Form::Eq(left, right))?)
}

#[inline(never)]
#[cycle(form)]
fn negation(alloc: Global, text: &mut Cursor<'_>, room: usize) -> Result<Boxed<Form>, Stop>
    ensures { Reads (spec.form_by (spec.term room) (spec.form room) FormName.Not text.old) result text.new }
{
    let body = form(alloc, text, room)?;
    Ok(Boxed::new(alloc, Form::Not(body))?)
}

#[inline(never)]
#[cycle(form)]
fn conjunction(alloc: Global, text: &mut Cursor<'_>, room: usize) -> Result<Boxed<Form>, Stop>
    ensures { Reads (spec.form_by (spec.term room) (spec.form room) FormName.And text.old) result text.new }
{
    let members = forms(alloc, text, room)?;
    Ok(Boxed::new(alloc, Form::And(members))?)
}

#[inline(never)]
#[cycle(form)]
fn disjunction(alloc: Global, text: &mut Cursor<'_>, room: usize) -> Result<Boxed<Form>, Stop>
    ensures { Reads (spec.form_by (spec.term room) (spec.form room) FormName.Or text.old) result text.new }
{
    let members = forms(alloc, text, room)?;
    Ok(Boxed::new(alloc, Form::Or(members))?)
}

#[inline(never)]
#[cycle(form)]
fn implication(alloc: Global, text: &mut Cursor<'_>, room: usize) -> Result<Boxed<Form>, Stop>
    ensures { Reads (spec.form_by (spec.term room) (spec.form room) FormName.Imp text.old) result text.new }
{
    let left = form(alloc, text, room)?;
    let right = form(alloc, text, room)?;
    Ok(Boxed::new(alloc, Form::Imp(left, right))?)
}

#[inline(never)]
#[cycle(form)]
fn equivalence(alloc: Global, text: &mut Cursor<'_>, room: usize) -> Result<Boxed<Form>, Stop>
    ensures { Reads (spec.form_by (spec.term room) (spec.form room) FormName.Iff text.old) result text.new }
{
    let left = form(alloc, text, room)?;
    let right = form(alloc, text, room)?;
    Ok(Boxed::new(alloc, Form::Iff(left, right))?)
}

#[inline(never)]
#[cycle(form)]
fn for_all(alloc: Global, text: &mut Cursor<'_>, room: usize) -> Result<Boxed<Form>, Stop>
    ensures { Reads (spec.form_by (spec.term room) (spec.form room) FormName.All text.old) result text.new }
{
    let sort = small(text)?;
    let body = form(alloc, text, room)?;
    Ok(Boxed::new(alloc, Form::All(sort, body))?)
}

#[inline(never)]
#[cycle(form)]
fn exists(alloc: Global, text: &mut Cursor<'_>, room: usize) -> Result<Boxed<Form>, Stop>
    ensures { Reads (spec.form_by (spec.term room) (spec.form room) FormName.Ex text.old) result text.new }
{
    let sort = small(text)?;
    let body = form(alloc, text, room)?;
    Ok(Boxed::new(alloc, Form::Ex(sort, body))?)
}
