// The heads of a clause's literals, which its flat form keeps: clauses with different heads have different flat forms.
ghost use Rattle.std.specs.Prelude.{◌≡◌, false, List as ListOf, Option as OptionOf, Some, map, IfOk};
ghost use Rattle.std.specs.Prelude.{ℕ, slice_get};
ghost use Rattle.std.specs.Option.{option_map};
ghost use Rattle.clause_form.specs.ClauseView.{all_there};
ghost use Rattle.clause_form.specs.declared.path.Parent.{Parent as Cited};
ghost use Rattle.clause_rules.specs.NormRule.{IsNormStep};
ghost use Rattle.rule_steps.specs.code.Outline.{sketch, heads_of, alone, HasOthers};

use clause_form::Parent;
use fof_terms::{Form, SymId};
use std::alloc::Global;
use tptp_base::{List, Memory};

/// A literal's sign and its symbol. An equation has none.
#[derive(Clone, Copy, PartialEq, Eq)]
pub struct Head {
    pub positive: bool,
    pub symbol: Option<SymId>,
}

/// Whether some parent may have the line's flat form. None has where the line and all parents are clauses, and the
/// heads are different.
pub fn may_be_alike(alloc: Global, parents: &[Parent], line: &Form) -> Result<bool, Memory>
    ensures { IfOk result (λ answer. answer ≡ false → IsNormStep parents.now line.now → ⊥) }
{
    match heads_of(alloc, line)? {
        Some(heads) => any_may_have(alloc, parents, heads.as_slice()),
        None => Ok(true),
    }
}

// Whether some parent may be a clause with these heads.
fn any_may_have(alloc: Global, parents: &[Parent], heads: &[Head]) -> Result<bool, Memory>
    ensures { IfOk result (λ answer. answer ≡ false → (a : ℕ) → (parent : Cited) → slice_get parents.now a ≡ Some parent
        → HasOthers heads.now parent.form) }
{
    for at in 0..parents.len() {
        let is_open = may_have(alloc, &parents[at].form, heads)?;
        if is_open {
            return Ok(true);
        }
    }
    Ok(false)
}

// Whether the formula may be a clause with these heads.
fn may_have(alloc: Global, form: &Form, heads: &[Head]) -> Result<bool, Memory>
    ensures { IfOk result (λ answer. answer ≡ false → HasOthers heads.now form.now) }
{
    match heads_of(alloc, form)? {
        Some(own) => Ok(are_same(own.as_slice(), heads)),
        None => Ok(true),
    }
}

// Whether these heads may be the same.
fn are_same(own: &[Head], heads: &[Head]) -> bool
    ensures { result ≡ false → own.now ≡ heads.now → ⊥ }
{
    if own.len() != heads.len() {
        return false;
    }
    for i in 0..own.len() {
        if own[i] != heads[i] {
            return false;
        }
    }
    true
}

// The heads of the formula, if it is a clause without truth and falsehood among its literals.
#[tactic(auto, using(crate::proofs::Sketches::heads_equations))]
#[cycle(heads_of)]
fn heads_of(alloc: Global, form: &Form) -> Result<Option<List<Head>>, Memory>
    ensures { IfOk result (λ found. found ≡ heads_of form.now) }
{
    match form {
        Form::All(_, body) => heads_of(alloc, body.get()),
        Form::Or(members) => heads_of_all(alloc, members.as_slice()),
        Form::Atom(_, _)
        | Form::Eq(_, _)
        | Form::Not(_)
        | Form::And(_)
        | Form::Imp(_, _)
        | Form::Iff(_, _)
        | Form::Ex(_, _) => head_alone(alloc, form),
    }
}

// The head of the formula, alone, if it is a literal and neither truth nor falsehood.
fn head_alone(alloc: Global, form: &Form) -> Result<Option<List<Head>>, Memory>
    ensures { IfOk result (λ found. found ≡ option_map alone (sketch form.now).head) }
{
    match head_of(form) {
        Some(head) => {
            let mut heads = List::new(alloc);
            heads.push(head)?;
            Ok(Some(heads))
        }
        None => Ok(None),
    }
}

// The heads of the formulas, if each is a literal.
fn heads_of_all(alloc: Global, members: &[Form]) -> Result<Option<List<Head>>, Memory>
    ensures { IfOk result (λ found. found ≡ all_there (map (λ a. (sketch a).head) members.now)) }
{
    let mut heads = List::new(alloc);
    for member in members {
        match head_of(member) {
            Some(head) => heads.push(head)?,
            None => return Ok(None),
        }
    }
    Ok(Some(heads))
}

// The head of the formula, if it is a literal and neither truth nor falsehood.
#[tactic(auto, using(crate::proofs::Sketches::sketch_equations))]
fn head_of(form: &Form) -> Option<Head>
    ensures { result ≡ (sketch form.now).head }
{
    match form {
        Form::Atom(symbol, _) => Some(signed(true, Some(*symbol))),
        Form::Eq(_, _) => Some(signed(true, None)),
        Form::Not(body) => match atom_of(body.get()) {
            Some(symbol) => Some(signed(false, symbol)),
            None => None,
        },
        Form::And(_)
        | Form::Or(_)
        | Form::Imp(_, _)
        | Form::Iff(_, _)
        | Form::All(_, _)
        | Form::Ex(_, _) => None,
    }
}

fn signed(positive: bool, symbol: Option<SymId>) -> Head
    ensures { result ≡ record { positive = positive; symbol = symbol } }
{
    Head { positive, symbol }
}

// The symbol of the formula, if it is an atom, and none if it is an equation.
#[tactic(auto, using(crate::proofs::Sketches::sketch_equations))]
fn atom_of(form: &Form) -> Option<Option<SymId>>
    ensures { result ≡ (sketch form.now).atom }
{
    match form {
        Form::Atom(symbol, _) => Some(Some(*symbol)),
        Form::Eq(_, _) => Some(None),
        Form::Not(_)
        | Form::And(_)
        | Form::Or(_)
        | Form::Imp(_, _)
        | Form::Iff(_, _)
        | Form::All(_, _)
        | Form::Ex(_, _) => None,
    }
}
