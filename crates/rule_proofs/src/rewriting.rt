//! Lines that cover an instance of a clause in which an equation has rewritten a term.
ghost use Rattle.std.specs.Prelude.{◌≡◌, ◌<◌, ◌++◌, [], ◌∷◌, ◌^◌, length, map, slice_get, Some, List as ListOf, IfOk};
ghost use Rattle.fof_terms.specs.declared.form.Form.{Form as Formula, Eq as Equation, Not as Denied, Or};
ghost use Rattle.fof_terms.specs.declared.term.Term.{Var};
ghost use Rattle.fof_terms.specs.Lift.{greatest, lift_term_reach, lifted_term};
ghost use Rattle.fof_terms.specs.Scope.{scope_sorts};
ghost use Rattle.fof_terms.specs.Sorts.{Sorted};
ghost use Rattle.clause_form.specs.ClauseView.{form_of_lit as lit_form};
ghost use Rattle.clause_form.specs.Covers.{AreSorted, negated as opposite_of};
ghost use Rattle.clause_rules.specs.Steps.{equation as equation_of};
ghost use Rattle.clause_proofs.specs.Bodies.{body_of};
ghost use Rattle.rule_proofs.specs.code.Factoring.{pick};
ghost use Rattle.clause_proofs.specs.Refuting.{AllSettled, IsGoal, RefutesBody, ShowsBody, ShowsUnder, body};
ghost use Rattle.clause_proofs.specs.code.Refuting.{ShowsFrom};
ghost use Rattle.rule_proofs.specs.code.Rewriting.{IsMarked, IsRewriting, filled as filled_lits, with_hole};

use clause_form::{AtomOf, Lit};
use clause_proofs::{
    Opened, Premise, by_pivot, form_of_body, images_of_lits, known_sort, refuted, turned,
};
use derive_kit::{Part, hyp, rewrite_in};
use fof_terms::{Form, Scope, Signature, Term, copy_terms, lift_terms};
use std::alloc::Global;
use tptp_base::{List, Memory};
use unify_terms::Subst;

/// The left one of the terms, or the right one where flipped.
pub fn picked<'a>(left: &'a Term, right: &'a Term, flipped: bool) -> &'a Term
    ensures { result.now ≡ pick flipped left.now right.now }
{
    if flipped { right } else { left }
}

/// The equation of the terms, by hypothesis 0, which has it, written from right to left where flipped.
pub fn read(
    alloc: Global,
    signature: &Signature,
    scope: &Scope<'_>,
    left: &Term,
    right: &Term,
    flipped: bool,
) -> Result<Part, Memory>
    requires sorted { Sorted signature.now (scope_sorts scope.now) (Equation left.now right.now) }
    requires room { length (scope_sorts scope.now) < 2147483647 }
    ensures { IfOk result
        (ShowsFrom signature.now (scope_sorts scope.now) 0 (lit_form (equation_of flipped left.now right.now))
        (Equation left.now right.now)) }
{
    let own = hyp(alloc, 0)?;
    if flipped {
        turned(alloc, signature, scope, right, left, own)
    } else {
        Ok(own)
    }
}

/// Falsehood under the negation of the line's body, by the instances `from`, of which the equation is the only literal
/// that the line may not cover, and `into`, whose literals have the equation's left side for the mark of the marked
/// ones. With its right side there, the line covers them.
pub fn by_equation(
    alloc: Global,
    signature: &Signature,
    scope: &Scope<'_>,
    line: &Opened,
    marked: &[Lit],
    images: &Subst,
    equation: &Lit,
    flipped: bool,
    into: Premise,
    from: Premise,
) -> Result<Part, Memory>
    requires rewriting { IsRewriting signature.now
        (scope_sorts scope.now) line.now.clause.lits images.now marked.now into.lits equation.now flipped }
    requires settled { AllSettled line.now.clause.lits (opposite_of equation.now) from.lits }
    requires goal { IsGoal signature.now (scope_sorts scope.now) line.now }
    requires from { AreSorted signature.now (scope_sorts scope.now) from.lits }
    requires equation { Sorted signature.now (scope_sorts scope.now) (lit_form equation.now) }
    ensures { IfOk result (λ part. (formulas : ListOf Formula)
        → ShowsBody signature.now (scope_sorts scope.now) formulas into.is_or into.lits into.part
        → ShowsBody signature.now (scope_sorts scope.now) formulas from.is_or from.lits from.part
        → RefutesBody signature.now (scope_sorts scope.now) formulas (body line.now) part) }
{
    let under = rewritten(
        alloc, signature, scope, line, marked, images, equation, flipped, into,
    )?;
    by_pivot(alloc, signature, scope, line, from, equation, under)
}

// Falsehood under the equation and the negation of the line's body.
fn rewritten(
    alloc: Global,
    signature: &Signature,
    scope: &Scope<'_>,
    line: &Opened,
    marked: &[Lit],
    images: &Subst,
    equation: &Lit,
    flipped: bool,
    into: Premise,
) -> Result<Part, Memory>
    requires rewriting { IsRewriting signature.now
        (scope_sorts scope.now) line.now.clause.lits images.now marked.now into.lits equation.now flipped }
    requires goal { IsGoal signature.now (scope_sorts scope.now) line.now }
    requires equation { Sorted signature.now (scope_sorts scope.now) (lit_form equation.now) }
    ensures { IfOk result (λ part. (formulas h : ListOf Formula)
        → ShowsBody signature.now (scope_sorts scope.now) formulas into.is_or into.lits into.part
        → ShowsUnder signature.now (scope_sorts scope.now) formulas (lit_form equation.now ∷ Denied (body line.now)
        ∷ h) (Or []) part) }
{
    match &equation.atom {
        AtomOf::Eq(first, second) => {
            let left = picked(first, second, flipped);
            let right = picked(second, first, flipped);
            let made = filled(
                alloc, signature, scope, marked, images, left, right, flipped, into,
            )?;
            refuted(alloc, signature, scope, line, made, equation)
        }
        _ => unreachable!(),
    }
}

// The instance with the equation's right side for the mark, by hypothesis 0, which is the equation, and by the instance
// with its left side there.
fn filled(
    alloc: Global,
    signature: &Signature,
    scope: &Scope<'_>,
    marked: &[Lit],
    images: &Subst,
    left: &Term,
    right: &Term,
    flipped: bool,
    into: Premise,
) -> Result<Premise, Memory>
    requires is_marked { IsMarked signature.now (scope_sorts scope.now) images.now marked.now left.now }
    requires before { into.lits ≡ filled_lits images.now marked.now left.now }
    requires sorted { Sorted signature.now (scope_sorts scope.now) (Equation left.now right.now) }
    requires room { length (scope_sorts scope.now) < 2147483647 }
    ensures lits { IfOk result (λ made. made.lits ≡ filled_lits images.now marked.now right.now) }
    ensures shows { IfOk result (λ made. (formulas h : ListOf Formula)
        → slice_get h 0 ≡ Some (lit_form (equation_of flipped left.now right.now))
        → ShowsUnder signature.now (scope_sorts scope.now) formulas h (body_of into.is_or into.lits) into.part
        → ShowsUnder signature.now (scope_sorts scope.now) formulas h (body_of made.is_or made.lits) made.part) }
{
    let sort = known_sort(left, signature, scope);
    let is_or = into.is_or;
    let own = read(alloc, signature, scope, left, right, flipped)?;
    let hole = hole_of(alloc, is_or, marked, images)?;
    let part = rewrite_in(alloc, sort, hole, own, into.part)?;
    let lits = filled_with(alloc, images, marked, right)?;
    Ok(Premise { is_or, lits, part })
}

// The marked literals under the images, with the term for the mark.
fn filled_with(
    alloc: Global,
    images: &Subst,
    marked: &[Lit],
    term: &Term,
) -> Result<List<Lit>, Memory>
    ensures { IfOk result (λ made. made ≡ filled_lits images.now marked.now term.now) }
{
    let mut all = copy_terms(alloc, images.images.as_slice())?;
    all.push(term.copy(alloc)?)?;
    images_of_lits(alloc, &Subst { images: all }, marked)
}

// The body with variable 0 for the mark.
fn hole_of(alloc: Global, is_or: bool, marked: &[Lit], images: &Subst) -> Result<Form, Memory>
    requires { greatest (map (lift_term_reach 1 0) images.now) < 2 ^ 32 }
    ensures { IfOk result (λ form. form ≡ body_of is_or (with_hole images.now marked.now)) }
{
    let images = lift_terms(alloc, images.images.as_slice(), 1, 0)?;
    let lits = filled_with(alloc, &Subst { images }, marked, &Term::Var(0))?;
    form_of_body(alloc, is_or, lits.as_slice())
}
