// Truth of formulas in a model. Each answer comes with the variables that it rests on, so a quantifier whose part is
// decided without its variable does not try the other elements.
ghost use Rattle.std.specs.Prelude.{◌≡◌, ◌==◌, not, [], ◌∷◌, get_or, map};
ghost use Rattle.std.specs.List.{list_all, list_any};
ghost use Rattle.fi_model.specs.Interpretations.{value_of, is_true, all_below, some_below, size};
ghost use Rattle.fi_model.specs.Tables.{interpretation, table_value};
ghost use Rattle.fi_model.specs.code.Looks.{Rests};
ghost use Rattle.fi_model.specs.code.Scope.{scope_elements};

use crate::looked::Looked;
use crate::model::FiniteModel;
use crate::table::Table;
use crate::tables::size_of;
use fof_terms::{Form, SortId, SymId, Term};

/// The elements that the variables in reach stand for.
#[derive(Clone, Copy)]
enum Scope<'a> {
    Outside,
    Under(usize, &'a Scope<'a>),
}

impl Scope<'_> {
    // The element of the variable that many binders away.
    #[tactic(auto, using(crate::proofs::ScopeFacts::scope_equations))]
    fn element_at(&self, distance: u32) -> usize
        ensures { result ≡ get_or (scope_elements self.now) distance 0 }
    {
        match self {
            Scope::Outside => 0,
            Scope::Under(element, outer) => {
                if distance == 0 {
                    *element
                } else {
                    outer.element_at(distance - 1)
                }
            }
        }
    }
}

// The element that a term is, and what it rests on.
#[derive(Clone, Copy)]
struct Reached {
    element: usize,
    looked: Looked,
}

// Whether a formula is true, and what that rests on.
#[derive(Clone, Copy)]
struct Decided {
    truth: bool,
    looked: Looked,
}

/// Whether the formula is true in the model. It takes no memory. A quantifier goes over the elements of its sort up to
/// the first that decides it, or that decides its part whatever the variable is.
#[tactic(auto, using(crate::proofs::ScopeFacts::scope_equations))]
pub fn holds(model: &FiniteModel, form: &Form) -> bool
    ensures { result ≡ is_true (interpretation model.now) [] form.now }
{
    truth(form, model, &Scope::Outside).truth
}

// The element that a term is.
#[tactic(auto, using(crate::proofs::TruthFacts::value_equations))]
#[cycle(value)]
fn value(term: &Term, model: &FiniteModel, scope: &Scope<'_>) -> Reached
    ensures { Rests (λ elements. value_of (interpretation model.now) elements term.now) (scope_elements scope.now)
        result.element result.looked }
{
    match term {
        Term::Var(distance) => Reached {
            element: scope.element_at(*distance),
            looked: Looked::one(*distance),
        },
        Term::App(symbol, args) => value_at(args.as_slice(), *symbol, model, scope),
    }
}

// What the symbol gives at these terms.
#[cycle(value)]
fn value_at(args: &[Term], symbol: SymId, model: &FiniteModel, scope: &Scope<'_>) -> Reached
    ensures { Rests (λ elements. (interpretation model.now).value symbol
        (map (value_of (interpretation model.now) elements) args.now)) (scope_elements scope.now)
        result.element result.looked }
{
    match model.tables.get(symbol as usize) {
        Some(table) => value_in(args, table, model, scope),
        None => Reached {
            element: 0,
            looked: Looked::none(),
        },
    }
}

// The value that a table has at these terms. One multiplication for each of them leads to its place.
#[cycle(value)]
fn value_in(args: &[Term], table: &Table, model: &FiniteModel, scope: &Scope<'_>) -> Reached
    ensures { Rests (λ elements. table_value table.now
        (map (value_of (interpretation model.now) elements) args.now)) (scope_elements scope.now)
        result.element result.looked }
{
    let sizes = table.sizes.as_slice();
    // The table stands in memory, as the count tells.
    let _count = table.values.len();
    let mut looked = Looked::none();
    if args.len() != sizes.len() {
        return Reached { element: 0, looked };
    }
    let mut at = 0;
    for i in 0..args.len() {
        let found = value(&args[i], model, scope);
        let element = found.element;
        looked = looked.with(found.looked);
        if element >= sizes[i] {
            return Reached { element: 0, looked };
        }
        at = at * sizes[i] + element;
    }
    match table.values.get(at) {
        Some(found) => Reached {
            element: *found,
            looked,
        },
        None => Reached { element: 0, looked },
    }
}

// Whether the formula is true where the variables in reach are these elements.
#[tactic(auto, using(crate::proofs::TruthFacts::truth_equations))]
#[cycle(truth)]
fn truth(form: &Form, model: &FiniteModel, scope: &Scope<'_>) -> Decided
    ensures { Rests (λ elements. is_true (interpretation model.now) elements form.now) (scope_elements scope.now)
        result.truth result.looked }
{
    match form {
        Form::Atom(symbol, args) => is_one(args.as_slice(), *symbol, model, scope),
        Form::Eq(left, right) => are_equal(left, right, model, scope),
        Form::Not(body) => denied(body.get(), model, scope),
        Form::And(members) => all_true(members.as_slice(), model, scope),
        Form::Or(members) => some_true(members.as_slice(), model, scope),
        Form::Imp(left, right) => {
            let left = truth(left.get(), model, scope);
            if !left.truth {
                return Decided {
                    truth: true,
                    looked: left.looked,
                };
            }
            let right = truth(right.get(), model, scope);
            if right.truth {
                return right;
            }
            Decided {
                truth: false,
                looked: left.looked.with(right.looked),
            }
        }
        Form::Iff(left, right) => {
            let left = truth(left.get(), model, scope);
            let right = truth(right.get(), model, scope);
            Decided {
                truth: left.truth == right.truth,
                looked: left.looked.with(right.looked),
            }
        }
        Form::All(sort, body) => true_of_all(body.get(), *sort, model, scope),
        Form::Ex(sort, body) => true_of_some(body.get(), *sort, model, scope),
    }
}

// Whether the predicate holds at these terms.
fn is_one(args: &[Term], symbol: SymId, model: &FiniteModel, scope: &Scope<'_>) -> Decided
    ensures { Rests (λ elements. (interpretation model.now).value symbol
        (map (value_of (interpretation model.now) elements) args.now) == 1) (scope_elements scope.now)
        result.truth result.looked }
{
    let found = value_at(args, symbol, model, scope);
    Decided {
        truth: found.element == 1,
        looked: found.looked,
    }
}

// Whether both terms are one element.
fn are_equal(left: &Term, right: &Term, model: &FiniteModel, scope: &Scope<'_>) -> Decided
    ensures { Rests (λ elements. value_of (interpretation model.now) elements left.now
        == value_of (interpretation model.now) elements right.now) (scope_elements scope.now)
        result.truth result.looked }
{
    let left = value(left, model, scope);
    let right = value(right, model, scope);
    Decided {
        truth: left.element == right.element,
        looked: left.looked.with(right.looked),
    }
}

// Whether the formula is false.
#[cycle(truth)]
fn denied(form: &Form, model: &FiniteModel, scope: &Scope<'_>) -> Decided
    ensures { Rests (λ elements. not (is_true (interpretation model.now) elements form.now)) (scope_elements scope.now)
        result.truth result.looked }
{
    let found = truth(form, model, scope);
    Decided {
        truth: !found.truth,
        looked: found.looked,
    }
}

// Whether all are true. The first that is false decides.
#[cycle(truth)]
fn all_true(forms: &[Form], model: &FiniteModel, scope: &Scope<'_>) -> Decided
    ensures { Rests (λ elements. list_all (is_true (interpretation model.now) elements) forms.now)
        (scope_elements scope.now) result.truth result.looked }
{
    let mut looked = Looked::none();
    for form in forms {
        let found = truth(form, model, scope);
        if !found.truth {
            return found;
        }
        looked = looked.with(found.looked);
    }
    Decided {
        truth: true,
        looked,
    }
}

// Whether some are true. The first that is true decides.
#[cycle(truth)]
fn some_true(forms: &[Form], model: &FiniteModel, scope: &Scope<'_>) -> Decided
    ensures { Rests (λ elements. list_any (is_true (interpretation model.now) elements) forms.now)
        (scope_elements scope.now) result.truth result.looked }
{
    let mut looked = Looked::none();
    for form in forms {
        let found = truth(form, model, scope);
        if found.truth {
            return found;
        }
        looked = looked.with(found.looked);
    }
    Decided {
        truth: false,
        looked,
    }
}

// Whether the formula is true whatever element of the sort the next variable is.
#[cycle(truth)]
fn true_of_all(form: &Form, sort: SortId, model: &FiniteModel, scope: &Scope<'_>) -> Decided
    ensures { Rests (λ elements. all_below (size model.now.domains sort)
        (λ x. is_true (interpretation model.now) (x ∷ elements) form.now)) (scope_elements scope.now)
        result.truth result.looked }
{
    let mut looked = Looked::none();
    for element in 0..size_of(model.domains.as_slice(), sort) {
        let found = truth(form, model, &Scope::Under(element, &*scope));
        let outer = found.looked.outside();
        if !found.truth {
            return Decided {
                truth: false,
                looked: outer,
            };
        }
        if !found.looked.has_nearest() {
            return Decided {
                truth: true,
                looked: outer,
            };
        }
        looked = looked.with(outer);
    }
    Decided {
        truth: true,
        looked,
    }
}

// Whether the formula is true where the next variable is some element of the sort.
#[cycle(truth)]
fn true_of_some(form: &Form, sort: SortId, model: &FiniteModel, scope: &Scope<'_>) -> Decided
    ensures { Rests (λ elements. some_below (size model.now.domains sort)
        (λ x. is_true (interpretation model.now) (x ∷ elements) form.now)) (scope_elements scope.now)
        result.truth result.looked }
{
    let mut looked = Looked::none();
    for element in 0..size_of(model.domains.as_slice(), sort) {
        let found = truth(form, model, &Scope::Under(element, &*scope));
        let outer = found.looked.outside();
        if found.truth {
            return Decided {
                truth: true,
                looked: outer,
            };
        }
        if !found.looked.has_nearest() {
            return Decided {
                truth: false,
                looked: outer,
            };
        }
        looked = looked.with(outer);
    }
    Decided {
        truth: false,
        looked,
    }
}
