// What a proof concludes: a formula that is lent where it stands.
ghost use Rattle.std.specs.Prelude.{ℕ, ◌≡◌, ◌↔◌, List, Some, IsTrue, IfOk, IfSome, IfNone};
ghost use Rattle.fof_terms.specs.declared.form.Form.{Form as Formula, Eq, Not, And, Or, Imp, Iff, All, Ex};
ghost use Rattle.fof_terms.specs.declared.term.Term.{Term as Terms};

use fof_terms::{Form, SortId, equal};
use std::alloc::Global;
use std::marker::Model;
use tptp_base::{Boxed, Memory};

/// What a proof concludes, if it concludes anything.
pub type Shown<'f> = Option<Finding<'f>>;

/// A formula that was shown.
#[derive(Drop)]
pub struct Finding<'f> {
    parts: Parts<'f>,
}

/// Where it stands, or of what it is made.
#[derive(Drop)]
enum Parts<'f> {
    /// In the theory, in a hypothesis or in the proof.
    Given(&'f Form),
    /// A rule made it.
    Made(Boxed<Form>),
    /// The negation of one that stands somewhere.
    Negation(&'f Form),
    /// The implication between two that stand somewhere.
    Implication(&'f Form, &'f Form),
    /// The implication from one that stands somewhere to one that a rule made.
    Towards(&'f Form, Boxed<Form>),
    /// The equivalence of two that stand somewhere.
    Equivalence(&'f Form, &'f Form),
}

impl<'f> Model for Finding<'f> {
    ghost use Rattle.fof_terms.specs.declared.form.Form.{Form};
    ghost use Rattle.fof_terms.specs.contracts.form.Form as form;

    ghost Value = { Form };

    ghost coded = { form.the_row.coded };

    ghost use Rattle.proof_check.specs.code.Findings.{formula};

    ghost view = { λ finding. formula finding.parts };
}

impl<'f> Finding<'f> {
    /// The formula, where it stands.
    pub fn given(form: &'f Form) -> Finding<'f>
        ensures { result ≡ form.now }
    {
        Finding {
            parts: Parts::Given(form),
        }
    }

    /// The formula that a rule made.
    pub fn made(form: Boxed<Form>) -> Finding<'f>
        ensures { result ≡ form }
    {
        Finding {
            parts: Parts::Made(form),
        }
    }

    /// The negation of the formula.
    pub fn negation(body: &'f Form) -> Finding<'f>
        ensures { result ≡ Not body.now }
    {
        Finding {
            parts: Parts::Negation(body),
        }
    }

    /// The equivalence of the formulas.
    pub fn equivalence(left: &'f Form, right: &'f Form) -> Finding<'f>
        ensures { result ≡ Iff left.now right.now }
    {
        Finding {
            parts: Parts::Equivalence(left, right),
        }
    }

    /// The implication from the formula to the one that was shown.
    pub fn implication(
        alloc: Global,
        left: &'f Form,
        right: Finding<'f>,
    ) -> Result<Finding<'f>, Memory>
        ensures { IfOk result (λ whole. whole ≡ Imp left.now right.entry) }
    {
        if let Some(form) = right.standing() {
            return Ok(Finding {
                parts: Parts::Implication(left, form),
            });
        }
        Ok(Finding {
            parts: Parts::Towards(left, right.into_boxed(alloc)?),
        })
    }

    /// The formula, if it stands somewhere.
    pub fn standing(&self) -> Option<&'f Form>
        ensures { IfSome result (λ form. form.now ≡ self.now) }
    {
        match &self.parts {
            Parts::Given(form) => Some(*form),
            _ => None,
        }
    }

    /// The formula, if it is in one piece.
    pub fn whole(&self) -> Option<&Form>
        ensures some { IfSome result (λ form. form.now ≡ self.now) }
        ensures no_and { IfNone result ((members : List Formula) → self.now ≡ And members → ⊥) }
        ensures no_or { IfNone result ((members : List Formula) → self.now ≡ Or members → ⊥) }
        ensures no_all { IfNone result ((sort : ℕ) (body : Formula) → self.now ≡ All sort body → ⊥) }
        ensures no_ex { IfNone result ((sort : ℕ) (body : Formula) → self.now ≡ Ex sort body → ⊥) }
        ensures no_eq { IfNone result ((left right : Terms) → self.now ≡ Eq left right → ⊥) }
    {
        match &self.parts {
            Parts::Given(form) => Some(*form),
            Parts::Made(form) => Some(form.get()),
            _ => None,
        }
    }

    /// What it negates.
    pub fn negated(&self) -> Option<&Form>
        ensures some { IfSome result (λ body. self.now ≡ Not body.now) }
        ensures none { IfNone result ((body : Formula) → self.now ≡ Not body → ⊥) }
    {
        match &self.parts {
            Parts::Negation(body) => Some(*body),
            Parts::Given(form) => negated_in(*form),
            Parts::Made(form) => negated_in(form.get()),
            _ => None,
        }
    }

    /// The sides of the implication.
    pub fn implied(&self) -> Option<(&Form, &Form)>
        ensures some { IfSome result (λ sides. self.now ≡ Imp sides.0.now sides.1.now) }
        ensures none { IfNone result ((left right : Formula) → self.now ≡ Imp left right → ⊥) }
    {
        match &self.parts {
            Parts::Implication(left, right) => Some((*left, *right)),
            Parts::Towards(left, right) => Some((*left, right.get())),
            Parts::Given(form) => implied_in(*form),
            Parts::Made(form) => implied_in(form.get()),
            _ => None,
        }
    }

    /// The sides of the equivalence.
    pub fn equated(&self) -> Option<(&Form, &Form)>
        ensures some { IfSome result (λ sides. self.now ≡ Iff sides.0.now sides.1.now) }
        ensures none { IfNone result ((left right : Formula) → self.now ≡ Iff left right → ⊥) }
    {
        match &self.parts {
            Parts::Equivalence(left, right) => Some((*left, *right)),
            Parts::Given(form) => equated_in(*form),
            Parts::Made(form) => equated_in(form.get()),
            _ => None,
        }
    }

    /// The right side of the implication or the equivalence.
    pub fn into_right(self) -> Option<Finding<'f>>
        ensures imp { (left right : Formula) → self.entry ≡ Imp left right → result ≡ Some right }
        ensures iff { (left right : Formula) → self.entry ≡ Iff left right → result ≡ Some right }
    {
        match self.parts {
            Parts::Given(Form::Imp(_, right)) => Some(Finding::given(right.get())),
            Parts::Given(Form::Iff(_, right)) => Some(Finding::given(right.get())),
            Parts::Given(_) => None,
            Parts::Made(form) => match form.into_inner() {
                Form::Imp(_, right) => Some(Finding::made(right)),
                Form::Iff(_, right) => Some(Finding::made(right)),
                _ => None,
            },
            Parts::Negation(_) => None,
            Parts::Implication(_, right) => Some(Finding::given(right)),
            Parts::Towards(_, right) => Some(Finding::made(right)),
            Parts::Equivalence(_, right) => Some(Finding::given(right)),
        }
    }

    /// The left side of the equivalence.
    pub fn into_left(self) -> Option<Finding<'f>>
        ensures { (left right : Formula) → self.entry ≡ Iff left right → result ≡ Some left }
    {
        match self.parts {
            Parts::Given(Form::Iff(left, _)) => Some(Finding::given(left.get())),
            Parts::Made(form) => match form.into_inner() {
                Form::Iff(left, _) => Some(Finding::made(left)),
                _ => None,
            },
            Parts::Equivalence(left, _) => Some(Finding::given(left)),
            _ => None,
        }
    }

    /// The sort and the body of what holds for all.
    pub fn into_body(self) -> Option<(SortId, Finding<'f>)>
        ensures some { IfSome result (λ parts. self.entry ≡ All parts.0 parts.1) }
        ensures none { IfNone result ((sort : ℕ) (body : Formula) → self.entry ≡ All sort body → ⊥) }
    {
        match self.parts {
            Parts::Given(Form::All(sort, body)) => Some((*sort, Finding::given(body.get()))),
            Parts::Made(form) => match form.into_inner() {
                Form::All(sort, body) => Some((sort, Finding::made(body))),
                _ => None,
            },
            _ => None,
        }
    }

    /// Whether it is the goal.
    pub fn is_form(&self, goal: &Form) -> bool
        ensures { IsTrue result ↔ (self.now ≡ goal.now) }
    {
        match &self.parts {
            Parts::Given(form) => equal(*form, goal),
            Parts::Made(form) => equal(form.get(), goal),
            Parts::Negation(body) => match goal {
                Form::Not(other) => equal(*body, other.get()),
                _ => false,
            },
            Parts::Implication(left, right) => match goal {
                Form::Imp(one, other) => equal(*left, one.get()) && equal(*right, other.get()),
                _ => false,
            },
            Parts::Towards(left, right) => match goal {
                Form::Imp(one, other) => equal(*left, one.get()) && equal(right.get(), other.get()),
                _ => false,
            },
            Parts::Equivalence(left, right) => match goal {
                Form::Iff(one, other) => equal(*left, one.get()) && equal(*right, other.get()),
                _ => false,
            },
        }
    }

    /// The formula, in memory of its own.
    #[inline(never)]
    pub fn into_boxed(self, alloc: Global) -> Result<Boxed<Form>, Memory>
        ensures { IfOk result (λ form. form ≡ self.entry) }
    {
        match self.parts {
            Parts::Given(form) => boxed(alloc, form),
            Parts::Made(form) => Ok(form),
            Parts::Negation(body) => Ok(Boxed::new(alloc, Form::Not(boxed(alloc, body)?))?),
            Parts::Implication(left, right) => {
                let right = boxed(alloc, right)?;
                Ok(Boxed::new(alloc, Form::Imp(boxed(alloc, left)?, right))?)
            }
            Parts::Towards(left, right) => {
                let left = boxed(alloc, left)?;
                Ok(Boxed::new(alloc, Form::Imp(left, right))?)
            }
            Parts::Equivalence(left, right) => {
                let right = boxed(alloc, right)?;
                Ok(Boxed::new(alloc, Form::Iff(boxed(alloc, left)?, right))?)
            }
        }
    }
}

// The formula, in memory of its own.
fn boxed(alloc: Global, form: &Form) -> Result<Boxed<Form>, Memory>
    ensures { IfOk result (λ copy. copy ≡ form.now) }
{
    Ok(Boxed::new(alloc, form.copy(alloc)?)?)
}

// What the formula negates.
fn negated_in(form: &Form) -> Option<&Form>
    ensures some { IfSome result (λ body. form.now ≡ Not body.now) }
    ensures none { IfNone result ((body : Formula) → form.now ≡ Not body → ⊥) }
{
    match form {
        Form::Not(body) => Some(body.get()),
        _ => None,
    }
}

// The sides of the implication.
fn implied_in(form: &Form) -> Option<(&Form, &Form)>
    ensures some { IfSome result (λ sides. form.now ≡ Imp sides.0.now sides.1.now) }
    ensures none { IfNone result ((left right : Formula) → form.now ≡ Imp left right → ⊥) }
{
    match form {
        Form::Imp(left, right) => Some((left.get(), right.get())),
        _ => None,
    }
}

// The sides of the equivalence.
fn equated_in(form: &Form) -> Option<(&Form, &Form)>
    ensures some { IfSome result (λ sides. form.now ≡ Iff sides.0.now sides.1.now) }
    ensures none { IfNone result ((left right : Formula) → form.now ≡ Iff left right → ⊥) }
{
    match form {
        Form::Iff(left, right) => Some((left.get(), right.get())),
        _ => None,
    }
}
