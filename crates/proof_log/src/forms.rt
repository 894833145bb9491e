// The text of terms and formulas.
ghost use Rattle.std.specs.Prelude.{◌≡◌, ◌++◌, OnOk, map};
ghost use Rattle.proof_log.specs.code.LogText.{term_text, terms_text, forms_text};
ghost use Rattle.proof_log.specs.LogText.{form_text, term_words, form_words};
ghost use Rattle.proof_log.specs.Words.{AreInRange, list_of};

use crate::line::{put_number, put_small, put_word};
use fof_terms::{Form, Term};
use std::alloc::AllocError;

// Appends the text of a term.
#[tactic(auto, using(crate::proofs::LogEquations::term_equations))]
#[cycle(put_term)]
pub fn put_term(term: &Term, text: &mut Vec<u8>) -> Result<(), AllocError>
    ensures text { OnOk result (text.new.items ≡ text.old.items ++ term_text term.now) }
    ensures in_range { OnOk result (AreInRange (term_words term.now)) }
{
    match term {
        Term::Var(number) => {
            put_word(text, b"v")?;
            put_small(text, *number)
        }
        Term::App(symbol, args) => {
            put_word(text, b"f")?;
            put_small(text, *symbol)?;
            put_terms(args.as_slice(), text)
        }
    }
}

// Appends how many terms there are, and then their words.
#[tactic(auto, using(crate::proofs::LogEquations::term_equations))]
#[cycle(put_term)]
pub fn put_terms(terms: &[Term], text: &mut Vec<u8>) -> Result<(), AllocError>
    ensures text { OnOk result (text.new.items ≡ text.old.items ++ terms_text terms.now) }
    ensures in_range { OnOk result (AreInRange (list_of (map term_words terms.now))) }
{
    put_number(text, terms.len() as u64)?;
    for term in terms {
        put_term(term, text)?;
    }
    Ok(())
}

// Appends the text of a formula.
#[tactic(auto, using(crate::proofs::LogEquations::form_equations))]
#[cycle(put_form)]
pub fn put_form(form: &Form, text: &mut Vec<u8>) -> Result<(), AllocError>
    ensures text { OnOk result (text.new.items ≡ text.old.items ++ form_text form.now) }
    ensures in_range { OnOk result (AreInRange (form_words form.now)) }
{
    match form {
        Form::Atom(symbol, args) => {
            put_word(text, b"a")?;
            put_small(text, *symbol)?;
            put_terms(args.as_slice(), text)
        }
        Form::Eq(left, right) => {
            put_word(text, b"=")?;
            put_term(left, text)?;
            put_term(right, text)
        }
        Form::Not(body) => {
            put_word(text, b"~")?;
            put_form(body.get(), text)
        }
        Form::And(members) => {
            put_word(text, b"&")?;
            put_forms(members.as_slice(), text)
        }
        Form::Or(members) => {
            put_word(text, b"|")?;
            put_forms(members.as_slice(), text)
        }
        Form::Imp(left, right) => {
            put_word(text, b">")?;
            put_form(left.get(), text)?;
            put_form(right.get(), text)
        }
        Form::Iff(left, right) => {
            put_word(text, b"<>")?;
            put_form(left.get(), text)?;
            put_form(right.get(), text)
        }
        Form::All(sort, body) => {
            put_word(text, b"!")?;
            put_small(text, *sort)?;
            put_form(body.get(), text)
        }
        Form::Ex(sort, body) => {
            put_word(text, b"?")?;
            put_small(text, *sort)?;
            put_form(body.get(), text)
        }
    }
}

// Appends how many formulas there are, and then their words.
#[tactic(auto, using(crate::proofs::LogEquations::form_equations))]
#[cycle(put_form)]
pub fn put_forms(forms: &[Form], text: &mut Vec<u8>) -> Result<(), AllocError>
    ensures text { OnOk result (text.new.items ≡ text.old.items ++ forms_text forms.now) }
    ensures in_range { OnOk result (AreInRange (list_of (map form_words forms.now))) }
{
    put_number(text, forms.len() as u64)?;
    for form in forms {
        put_form(form, text)?;
    }
    Ok(())
}
