//! What is supposed false in turn: the line, and what its names stand for.
ghost use Rattle.std.specs.Prelude.{◌≡◌, ◌<◌, ◌^◌, ◌∷◌, [], ℕ, List as ListOf, length, Some, IfOk, slice_get};
ghost use Rattle.fof_terms.specs.declared.form.Form.{Atom as Stated};
ghost use Rattle.clause_form.specs.declared.clause.Clause.{Clause as Disjunction};
ghost use Rattle.clause_form.specs.declared.path.Parent.{Parent as Given};
ghost use Rattle.clause_proofs.specs.code.Bodies.{IsReadyClause};
ghost use Rattle.clause_rules.specs.Steps.{AreReady, IsReady};
ghost use Rattle.split_defs.specs.code.SplitProof.{AreNamed, AreStages, IsStage, name_tree, stage_clauses};
ghost use Rattle.split_defs.specs.SplitRule.{HasName, Names, name_lit};
ghost use Rattle.clause_form.specs.Paths.{forms_of};

use crate::names::place_of_name;
use clause_form::Parent;
use clause_proofs::{Opened, for_all, injected, known_clause, line as formula};
use derive_kit::{Part, hyp, iff_r, not_e};
use fof_terms::{Form, Signature};
use std::alloc::Global;
use tptp_base::{Boxed, List, Memory};

/// A closed formula with the clause that it is, and a part that shows falsehood from the formula, as hypothesis 0, and
/// from the negation of the line.
#[derive(Drop)]
pub struct Stage {
    pub form: Boxed<Form>,
    pub opened: Opened,
    pub contrary: Part,
}

/// The line, and then what the parents of these numbers name.
pub fn all_stages(
    alloc: Global,
    sig: &Signature,
    parents: &[Parent],
    form: &Form,
    line: &Opened,
    names: &[usize],
) -> Result<List<Stage>, Memory>
    requires ready { AreReady sig.now parents.now }
    requires line { IsReadyClause sig.now form.now line.now }
    requires named { (ds : ListOf Disjunction) × AreNamed (forms_of parents.now) line.now.clause names.now ds }
    ensures stages { IfOk result (AreStages sig.now parents.now form.now 1) }
    ensures short { IfOk result (λ stages. length stages < 2 ^ 32) }
    ensures clauses { IfOk result (λ stages. (ds : ListOf Disjunction)
        → AreNamed (forms_of parents.now) line.now.clause names.now ds → stage_clauses stages ≡ line.now.clause ∷ ds) }
{
    let mut stages = List::new(alloc);
    stages.push(line_stage(alloc, sig, parents, form, line)?)?;
    for i in 0..names.len() {
        let denial = hypothesis(i + 2)?;
        let stage = named_stage(alloc, sig, parents, form, line, names[i], denial)?;
        stages.push(stage)?;
    }
    Ok(stages)
}

// The place of a hypothesis as its number. A place after the 2^32nd, which no proof names, is answered by want of
// memory.
fn hypothesis(place: usize) -> Result<u32, Memory>
    ensures { IfOk result (λ number. number ≡ place) }
{
    match u32::try_from(place) {
        Ok(number) => Ok(number),
        Err(_) => Err(Memory),
    }
}

// The line itself.
fn line_stage(
    alloc: Global,
    sig: &Signature,
    parents: &[Parent],
    form: &Form,
    line: &Opened,
) -> Result<Stage, Memory>
    requires { IsReadyClause sig.now form.now line.now }
    ensures stage { IfOk result (IsStage sig.now parents.now form.now 1) }
    ensures clause { IfOk result (λ stage. stage.opened.clause ≡ line.now.clause) }
{
    let opened = known_clause(alloc, form)?;
    let contrary = not_e(alloc, hyp(alloc, 1)?, hyp(alloc, 0)?)?;
    let form = Boxed::new(alloc, form.copy(alloc)?)?;
    Ok(Stage {
        form,
        opened,
        contrary,
    })
}

// What the parent of that number says that a literal of the line stands for.
fn named_stage(
    alloc: Global,
    sig: &Signature,
    parents: &[Parent],
    form: &Form,
    line: &Opened,
    at: usize,
    denial: u32,
) -> Result<Stage, Memory>
    requires ready { AreReady sig.now parents.now }
    requires line { IsReadyClause sig.now form.now line.now }
    requires named { (p : Given) × (d : Disjunction) × (slice_get parents.now at ≡ Some p)
        × Names line.now.clause p.form d }
    ensures stage { IfOk result (IsStage sig.now parents.now form.now denial) }
    ensures clause { IfOk result (λ stage. (p : Given) (d : Disjunction) → slice_get parents.now at ≡ Some p
        → Names line.now.clause p.form d → stage.opened.clause ≡ d) }
{
    let parent = &parents[at];
    let Form::Iff(name, meaning) = &parent.form else {
        unreachable!()
    };
    let place = known_place(line, name.get());
    let contrary = by_name(alloc, line, place, parent.number, denial)?;
    let opened = known_clause(alloc, meaning.get())?;
    let form = Boxed::new(alloc, meaning.get().copy(alloc)?)?;
    Ok(Stage {
        form,
        opened,
        contrary,
    })
}

// The place at which the predicate stands in the line as a literal.
fn known_place(line: &Opened, name: &Form) -> usize
    requires { (q : ℕ) × (name.now ≡ Stated q []) × HasName line.now.clause q }
    ensures { (q : ℕ) → name.now ≡ Stated q [] → slice_get line.now.clause.lits result ≡ Some (name_lit q) }
{
    let Form::Atom(symbol, _) = name else {
        unreachable!()
    };
    match place_of_name(line.clause.lits.as_slice(), *symbol) {
        Some(place) => place,
        None => unreachable!(),
    }
}

// Falsehood from the negation of the line, as hypothesis number `denial`, and from what the literal at that place
// stands for by the formula of that number, as hypothesis 0.
fn by_name(
    alloc: Global,
    line: &Opened,
    place: usize,
    number: u64,
    denial: u32,
) -> Result<Part, Memory>
    ensures { IfOk result (λ made. made ≡ name_tree line.now place number denial) }
{
    let name = iff_r(alloc, formula(alloc, number)?, hyp(alloc, 0)?)?;
    let own = injected(alloc, line, place, name)?;
    let whole = for_all(alloc, line.clause.sorts.as_slice(), own)?;
    not_e(alloc, hyp(alloc, denial)?, whole)
}
