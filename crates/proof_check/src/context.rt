ghost use Rattle.std.specs.Prelude.{◌≡◌, ◌+◌, ◌<◌, ◌^◌, [], ◌∷◌, slice_get, reverse, IfOk};
ghost use Rattle.std.specs.Option.{option_copied, option_map};
ghost use Rattle.std.specs.List.{AllByRecursion};
ghost use Rattle.fof_terms.specs.Lift.{lifted, lift_reach};
ghost use Rattle.proof_check.specs.code.Hypotheses.{hypotheses, crossed_in, in_reach};

use crate::finding::{Finding, Shown};
use crate::theory::Theory;
use fof_terms::{Form, Scope, SortId, lift};
use std::alloc::Global;
use tptp_base::{Boxed, List, Memory};

/// The sorts of the free variables, the last of which is variable 0, and the hypotheses, the last of which is number 0.
#[derive(Drop)]
pub struct Context {
    pub sorts: List<SortId>,
    pub hyps: List<Form>,
}

impl Context {
    /// The context without variables and hypotheses.
    pub fn empty(alloc: Global) -> Context
        ensures sorts { result.sorts ≡ [] }
        ensures hyps { result.hyps ≡ [] }
    {
        Context {
            sorts: List::new(alloc),
            hyps: List::new(alloc),
        }
    }
}

/// The hypotheses in reach: those of a context, and those that the rules crossed have added. They stand where the
/// findings stand that are made of them.
#[derive(Clone, Copy)]
pub enum Hypotheses<'f, 'c> {
    /// The last is number 0.
    Outside(&'f [Form]),
    /// One more, which is number 0.
    Under(&'f Form, &'c Hypotheses<'f, 'c>),
    /// The same over one variable more.
    Over(&'c Hypotheses<'f, 'c>),
}

/// What a part of a proof can speak of: the theory, the variables and the hypotheses in reach, and room for so many
/// variables more.
#[derive(Clone, Copy)]
pub struct Reach<'f, 'c> {
    pub theory: &'f Theory,
    pub scope: &'c Scope<'c>,
    pub hyps: &'c Hypotheses<'f, 'c>,
    pub room: u32,
}

/// A hypothesis, where it stands, and how many variables were crossed since.
#[derive(Clone, Copy)]
struct Standing<'f> {
    form: &'f Form,
    crossed: u32,
}

/// The hypothesis of that number. However many variables were crossed, it is lifted over them at once.
#[inline(never)]
pub fn hypothesis<'f>(
    alloc: Global,
    hyps: &Hypotheses<'f, '_>,
    number: u32,
) -> Result<Shown<'f>, Memory>
    requires few { crossed_in hyps.now < 2 ^ 32 }
    requires fits { AllByRecursion (λ a. lift_reach 1 0 a < 2 ^ 32) (hypotheses hyps.now) }
    ensures { IfOk result (λ form. form ≡ slice_get (hypotheses hyps.now) number) }
{
    match find(hyps, number, 0) {
        Some(found) => Ok(Some(over_crossed(alloc, found)?)),
        None => Ok(None),
    }
}

// Where the hypothesis of that number stands, `crossed` variables further in.
#[tactic(auto, using(crate::proofs::HypothesesFacts::hypotheses_equations))]
fn find<'f>(hyps: &Hypotheses<'f, '_>, number: u32, crossed: u32) -> Option<Standing<'f>>
    requires { crossed + crossed_in hyps.now < 2 ^ 32 }
    ensures { option_map in_reach result ≡ option_map (lifted crossed 0) (slice_get (hypotheses hyps.now) number) }
{
    match hyps {
        Hypotheses::Outside(forms) => match from_end(*forms, number) {
            Some(form) => Some(Standing { form, crossed }),
            None => None,
        },
        Hypotheses::Under(form, outer) => {
            if number == 0 {
                Some(Standing {
                    form: *form,
                    crossed,
                })
            } else {
                find(*outer, number - 1, crossed)
            }
        }
        Hypotheses::Over(outer) => find(*outer, number, crossed + 1),
    }
}

// The hypothesis over the variables that were crossed. One that none were crossed for is lent.
fn over_crossed<'f>(alloc: Global, found: Standing<'f>) -> Result<Finding<'f>, Memory>
    requires { lift_reach found.crossed 0 found.form.now < 2 ^ 32 }
    ensures { IfOk result (λ form. form ≡ in_reach found.entry) }
{
    if found.crossed == 0 {
        return Ok(Finding::given(found.form));
    }
    let moved = lift(alloc, found.form, found.crossed, 0)?;
    Ok(Finding::made(Boxed::new(alloc, moved)?))
}

/// The formula, where it stands.
pub fn given<'f>(form: Option<&'f Form>) -> Shown<'f>
    ensures { result ≡ option_copied form.entry }
{
    match form {
        Some(form) => Some(Finding::given(form)),
        None => None,
    }
}

// The formula at that distance from the end.
fn from_end(forms: &[Form], distance: u32) -> Option<&Form>
    ensures { option_copied result ≡ slice_get (reverse forms.now) distance }
{
    let distance = distance as usize;
    if distance < forms.len() {
        Some(&forms[forms.len() - 1 - distance])
    } else {
        None
    }
}
