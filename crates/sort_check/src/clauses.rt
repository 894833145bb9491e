// What whole formulas denote.
ghost use Rattle.std.specs.Prelude.{◌≡◌, [], length};
ghost use Rattle.sort_check.specs.code.Outcomes.{Answers};
ghost use Rattle.sort_check.specs.Sorting.{Extends};
ghost use Rattle.sort_check.specs.Denotation as spec;

use crate::binding::close_to;
use crate::fault::{SortRule, Stop};
use crate::formulas::denote_form;
use crate::names::Names;
use crate::scope::Scope;
use crate::variables::note_variables;
use fof_terms::{Form, Signature};
use std::alloc::Global;
use tptp_base::{Lang, List, Quant, Surface};

/// What a formula of that language denotes, where a new symbol has the sorts of its place or is one of individuals.
pub fn denote_formula(
    alloc: Global,
    lang: Lang,
    declared: &Names,
    signature: &mut Signature,
    form: &Surface,
    by_place: bool,
) -> Result<Form, Stop>
    ensures value { Answers (spec.formula by_place lang declared.now form.now signature.old) result signature.new }
    ensures keeps { Extends signature.old signature.new }
{
    match lang {
        Lang::Cnf => denote_clause(alloc, declared, signature, form, by_place),
        Lang::Fof | Lang::Tff | Lang::Tcf => {
            denote_sentence(alloc, declared, signature, form, by_place)
        }
    }
}

// A formula of FOF or TFF binds its variables itself.
fn denote_sentence(
    alloc: Global,
    declared: &Names,
    signature: &mut Signature,
    form: &Surface,
    by_place: bool,
) -> Result<Form, Stop>
    ensures value { Answers (spec.sentence by_place declared.now form.now signature.old) result signature.new }
    ensures keeps { Extends signature.old signature.new }
{
    let mut scope = Scope::over(List::new(alloc), SortRule::FreeVariable, by_place);
    denote_form(form, alloc, declared, signature, &mut scope)
}

// The variables of a clause are bound in front.
#[tactic(auto, using(crate::proofs::SameVariables::same_scope))]
fn denote_clause(
    alloc: Global,
    declared: &Names,
    signature: &mut Signature,
    form: &Surface,
    by_place: bool,
) -> Result<Form, Stop>
    ensures value { Answers (spec.clause by_place declared.now form.now signature.old) result signature.new }
    ensures keeps { Extends signature.old signature.new }
{
    let mut variables = List::new(alloc);
    note_variables(form, &mut variables)?;
    let mut scope = Scope::over(variables, SortRule::Variables, by_place);
    let body = denote_form(form, alloc, declared, signature, &mut scope)?;
    Ok(close_to(alloc, Quant::All, &mut scope, 0, body)?)
}
