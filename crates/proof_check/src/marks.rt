// The symbols that the formulas of a theory use: a mark at the number of each.
ghost use Rattle.std.specs.Prelude.{ℕ, ◌≡◌, ◌==◌, ◌≤◌, length, slice_get, Some, OnOk};
ghost use Rattle.std.specs.List.{list_any};
ghost use Rattle.fof_terms.specs.Occurs.{occurs_in, occurs_in_term};
ghost use Rattle.fof_terms.specs.declared.form.Form.{Form as Formula};
ghost use Rattle.proof_check.specs.Uses.{is_marked};
ghost use Rattle.proof_check.specs.code.Marking.{Marks};

use fof_terms::{Form, SymId, Term};
use tptp_base::{List, Memory};

/// Makes places for so many symbols; what is marked stays so.
pub fn widen(marks: &mut List<bool>, count: usize) -> Result<(), Memory>
    ensures wide { OnOk result (count ≤ length marks.new) }
    ensures same { (symbol : ℕ) → is_marked marks.new symbol ≡ is_marked marks.old symbol }
{
    for _ in marks.len()..count {
        marks.push(false)?;
    }
    Ok(())
}

/// Whether the symbol is marked.
pub fn has(marks: &[bool], symbol: SymId) -> bool
    ensures { result ≡ is_marked marks.now symbol }
{
    let place = symbol as usize;
    place < marks.len() && marks[place]
}

/// Marks the symbols of the formula at that place.
pub fn mark_at(forms: &[Form], place: usize, marks: &mut List<bool>)
    ensures { (a : Formula) → slice_get forms.now place ≡ Some a → Marks (λ k. occurs_in k a) marks.old marks.new }
{
    if place < forms.len() {
        mark_form(&forms[place], marks);
    }
}

// Marks the symbols of a formula.
#[cycle(mark_form)]
fn mark_form(form: &Form, marks: &mut List<bool>)
    ensures { Marks (λ k. occurs_in k form.now) marks.old marks.new }
{
    match form {
        Form::Atom(head, args) => {
            mark(*head, marks);
            mark_terms(args.as_slice(), marks);
        }
        Form::Eq(left, right) => {
            mark_term(left, marks);
            mark_term(right, marks);
        }
        Form::Not(body) | Form::All(_, body) | Form::Ex(_, body) => mark_form(body.get(), marks),
        Form::And(members) | Form::Or(members) => mark_forms(members.as_slice(), marks),
        Form::Imp(left, right) | Form::Iff(left, right) => {
            mark_form(left.get(), marks);
            mark_form(right.get(), marks);
        }
    }
}

/// Marks the symbols of formulas.
#[cycle(mark_form)]
pub fn mark_forms(forms: &[Form], marks: &mut List<bool>)
    ensures { Marks (λ k. list_any (occurs_in k) forms.now) marks.old marks.new }
{
    for form in forms {
        mark_form(form, marks);
    }
}

// Marks the symbols of a term.
#[cycle(mark_term)]
fn mark_term(term: &Term, marks: &mut List<bool>)
    ensures { Marks (λ k. occurs_in_term k term.now) marks.old marks.new }
{
    match term {
        Term::Var(_) => {}
        Term::App(head, args) => {
            mark(*head, marks);
            mark_terms(args.as_slice(), marks);
        }
    }
}

// Marks the symbols of terms.
#[cycle(mark_term)]
fn mark_terms(terms: &[Term], marks: &mut List<bool>)
    ensures { Marks (λ k. list_any (occurs_in_term k) terms.now) marks.old marks.new }
{
    for term in terms {
        mark_term(term, marks);
    }
}

// Marks one symbol, where its place is there.
#[tactic(auto, using(crate::proofs::MarksFacts::marks_of_one))]
fn mark(symbol: SymId, marks: &mut List<bool>)
    ensures { Marks (λ k. symbol == k) marks.old marks.new }
{
    let place = symbol as usize;
    if place < marks.len() {
        marks.set(place, true);
    }
}
