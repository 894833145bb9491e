// How formulas are written.
ghost use Rattle.std.specs.Prelude.{◌≡◌, ◌+◌, IfOk, true};
ghost use Rattle.tptp_base.specs.declared.surface.Quant.TheVariants as q;
ghost use Rattle.fof_terms.specs.declared.form.Form.{Atom, Eq, Not, And, Or, All, Ex};
ghost use Rattle.prove_out.specs.Denoting.{Denotes, IsWritable};
ghost use Rattle.prove_out.specs.Variables.{is_numbered};
ghost use Rattle.prove_out.specs.code.Written.{EachWritten, WritesForm, WritesBehind};

use crate::names::{bound_variable, symbol_name};
use crate::terms::{written_term, written_terms};
use fof_terms::{Form, Signature, SortId, SymId, Term};
use std::alloc::Global;
use tptp_base::{BinOp, BoundVar, Boxed, List, Memory, Quant, Surface};

/// A formula of language tff that denotes the form. Binder k from the outside is the variable `Xk`, with its sort.
pub fn surface_of(alloc: Global, sig: &Signature, form: &Form) -> Result<Surface, Memory>
    ensures denotes { IsWritable sig.now form.now → IfOk result (λ formula. Denotes sig.now formula form.now) }
    ensures named { IfOk result (λ formula. is_numbered 0 formula ≡ true) }
{
    written(alloc, sig, form, 0)
}

// The formula, under so many binders.
#[cycle(formula)]
fn written(alloc: Global, sig: &Signature, form: &Form, depth: u32) -> Result<Surface, Memory>
    ensures { IfOk result (λ formula. WritesForm sig.now depth form.now formula) }
{
    match form {
        Form::Atom(symbol, args) => atom(alloc, sig, *symbol, args.as_slice(), depth),
        Form::Eq(left, right) => equation(alloc, sig, left, right, depth),
        Form::Not(body) => negation(alloc, sig, body, depth),
        Form::And(members) => conjunction(alloc, sig, members.as_slice(), depth),
        Form::Or(members) => disjunction(alloc, sig, members.as_slice(), depth),
        Form::Imp(left, right) => {
            let left = boxed(alloc, sig, left, depth)?;
            let right = boxed(alloc, sig, right, depth)?;
            Ok(Surface::Binary(BinOp::Imp, left, right))
        }
        Form::Iff(left, right) => {
            let left = boxed(alloc, sig, left, depth)?;
            let right = boxed(alloc, sig, right, depth)?;
            Ok(Surface::Binary(BinOp::Iff, left, right))
        }
        Form::All(sort, body) => universal(alloc, sig, *sort, body, depth, List::new(alloc)),
        Form::Ex(sort, body) => existential(alloc, sig, *sort, body, depth, List::new(alloc)),
    }
}

#[inline(never)]
fn atom(
    alloc: Global,
    sig: &Signature,
    symbol: SymId,
    args: &[Term],
    depth: u32,
) -> Result<Surface, Memory>
    ensures { IfOk result (λ formula. WritesForm sig.now depth (Atom symbol args.now) formula) }
{
    let word = symbol_name(alloc, sig, symbol)?;
    Ok(Surface::Atom(word, written_terms(alloc, sig, args, depth)?))
}

#[inline(never)]
fn equation(
    alloc: Global,
    sig: &Signature,
    left: &Term,
    right: &Term,
    depth: u32,
) -> Result<Surface, Memory>
    ensures { IfOk result (λ formula. WritesForm sig.now depth (Eq left.now right.now) formula) }
{
    let left = written_term(alloc, sig, left, depth)?;
    let right = written_term(alloc, sig, right, depth)?;
    Ok(Surface::Eq(left, right))
}

#[inline(never)]
fn inequation(
    alloc: Global,
    sig: &Signature,
    left: &Term,
    right: &Term,
    depth: u32,
) -> Result<Surface, Memory>
    ensures { IfOk result (λ formula. WritesForm sig.now depth (Not (Eq left.now right.now)) formula) }
{
    let left = written_term(alloc, sig, left, depth)?;
    let right = written_term(alloc, sig, right, depth)?;
    Ok(Surface::Neq(left, right))
}

// The negation: of an equation with `!=`.
#[cycle(formula)]
#[inline(never)]
fn negation(
    alloc: Global,
    sig: &Signature,
    body: &Boxed<Form>,
    depth: u32,
) -> Result<Surface, Memory>
    ensures { IfOk result (λ formula. WritesForm sig.now depth (Not body.now) formula) }
{
    match body.get() {
        Form::Eq(left, right) => inequation(alloc, sig, left, right, depth),
        _ => Ok(Surface::Not(boxed(alloc, sig, body, depth)?)),
    }
}

#[cycle(formula)]
#[inline(never)]
fn boxed(
    alloc: Global,
    sig: &Signature,
    form: &Boxed<Form>,
    depth: u32,
) -> Result<Boxed<Surface>, Memory>
    ensures { IfOk result (λ formula. WritesForm sig.now depth form.now formula) }
{
    Ok(Boxed::new(alloc, written(alloc, sig, form.get(), depth)?)?)
}

// The conjunction: of nothing it is `$true`.
#[cycle(formula)]
#[inline(never)]
fn conjunction(
    alloc: Global,
    sig: &Signature,
    members: &[Form],
    depth: u32,
) -> Result<Surface, Memory>
    ensures { IfOk result (λ formula. WritesForm sig.now depth (And members.now) formula) }
{
    if members.is_empty() {
        return Ok(Surface::True);
    }
    Ok(Surface::And(all(alloc, sig, members, depth)?))
}

// The disjunction: of nothing it is `$false`.
#[cycle(formula)]
#[inline(never)]
fn disjunction(
    alloc: Global,
    sig: &Signature,
    members: &[Form],
    depth: u32,
) -> Result<Surface, Memory>
    ensures { IfOk result (λ formula. WritesForm sig.now depth (Or members.now) formula) }
{
    if members.is_empty() {
        return Ok(Surface::False);
    }
    Ok(Surface::Or(all(alloc, sig, members, depth)?))
}

#[cycle(formula)]
#[inline(never)]
fn all(alloc: Global, sig: &Signature, forms: &[Form], depth: u32) -> Result<List<Surface>, Memory>
    ensures { IfOk result (λ formulas. EachWritten (WritesForm sig.now depth) forms.now formulas) }
{
    let mut formulas = List::new(alloc);
    for form in forms {
        formulas.push(written(alloc, sig, form, depth)?)?;
    }
    Ok(formulas)
}

// The formula under a further universal quantifier, behind the variables of those directly around it.
#[cycle(formula)]
#[inline(never)]
fn universal(
    alloc: Global,
    sig: &Signature,
    sort: SortId,
    body: &Boxed<Form>,
    depth: u32,
    around: List<BoundVar>,
) -> Result<Surface, Memory>
    ensures { IfOk result (WritesBehind sig.now depth q.All around (All sort body.now)) }
{
    let inside = one_deeper(depth)?;
    let mut variables = around;
    variables.push(bound_variable(alloc, sig, sort, depth)?)?;
    match body.get() {
        Form::All(sort, body) => universal(alloc, sig, *sort, body, inside, variables),
        _ => Ok(Surface::Bind(Quant::All, variables, boxed(alloc, sig, body, inside)?)),
    }
}

// The same under a further existential quantifier.
#[cycle(formula)]
#[inline(never)]
fn existential(
    alloc: Global,
    sig: &Signature,
    sort: SortId,
    body: &Boxed<Form>,
    depth: u32,
    around: List<BoundVar>,
) -> Result<Surface, Memory>
    ensures { IfOk result (WritesBehind sig.now depth q.Ex around (Ex sort body.now)) }
{
    let inside = one_deeper(depth)?;
    let mut variables = around;
    variables.push(bound_variable(alloc, sig, sort, depth)?)?;
    match body.get() {
        Form::Ex(sort, body) => existential(alloc, sig, *sort, body, inside, variables),
        _ => Ok(Surface::Bind(Quant::Ex, variables, boxed(alloc, sig, body, inside)?)),
    }
}

// The number of binders around what stands within a further one.
fn one_deeper(depth: u32) -> Result<u32, Memory>
    ensures { IfOk result (λ inside. inside ≡ depth + 1) }
{
    match depth.checked_add(1) {
        Some(inside) => Ok(inside),
        // Binders have no greater numbers, and no memory holds so many.
        None => Err(Memory),
    }
}
