// The text of general terms.
ghost use Rattle.std.specs.Prelude.{◌≡◌, ◌++◌, OnOk, codes, map};
ghost use Rattle.canon_print.specs.Canonical as spec;
ghost use Rattle.canon_print.specs.Canonical.{general_text};
ghost use Rattle.canon_print.specs.Words.{word_text, separated};
ghost use Rattle.tptp_grammar.specs.Tokens as tokens;

use crate::formulas::put_formula;
use crate::terms::put_term;
use crate::words::{put_quoted, put_word};
use std::alloc::AllocError;
use tptp_base::{GTerm, Lang, STerm, Surface};

// Appends the word before a formula in a general term.
fn put_embedding(lang: Lang, text: &mut Vec<u8>) -> Result<(), AllocError>
    ensures { OnOk result (text.new.items ≡ text.old.items ++ tokens.embedded_text lang) }
{
    match lang {
        Lang::Cnf => text.extend_from_slice(b"$cnf"),
        Lang::Fof => text.extend_from_slice(b"$fof"),
        Lang::Tff => text.extend_from_slice(b"$tff"),
        Lang::Tcf => text.extend_from_slice(b"$tcf"),
    }
}

// Appends a formula in a general term.
fn put_embedded(lang: Lang, formula: &Surface, text: &mut Vec<u8>) -> Result<(), AllocError>
    ensures { OnOk result (text.new.items ≡ text.old.items
        ++ (tokens.embedded_text lang ++ (codes "(" ++ (spec.formula_text formula.now ++ codes ")")))) }
{
    put_embedding(lang, text)?;
    text.push(b'(')?;
    put_formula(formula, text)?;
    text.push(b')')?;
    Ok(())
}

// Appends a term in a general term.
fn put_embedded_term(term: &STerm, text: &mut Vec<u8>) -> Result<(), AllocError>
    ensures { OnOk result (text.new.items ≡ text.old.items
        ++ (codes "$fot(" ++ (spec.term_text term.now ++ codes ")"))) }
{
    text.extend_from_slice(b"$fot(")?;
    put_term(term, text)?;
    text.push(b')')?;
    Ok(())
}

// Appends general terms with commas between them.
#[cycle(put_general)]
fn put_generals(terms: &[GTerm], text: &mut Vec<u8>) -> Result<(), AllocError>
    ensures { OnOk result (text.new.items ≡ text.old.items ++ separated (codes ",") (map general_text terms.now)) }
{
    if let [first, others @ ..] = terms {
        put_general(first, text)?;
        'others: for other in others {
            text.push(b',')?;
            put_general(other, text)?;
        }
    }
    Ok(())
}

/// Appends a list of general terms.
#[cycle(put_general)]
pub fn put_list(terms: &[GTerm], text: &mut Vec<u8>) -> Result<(), AllocError>
    ensures { OnOk result (text.new.items ≡ text.old.items ++ spec.list_text (map general_text terms.now)) }
{
    text.push(b'[')?;
    put_generals(terms, text)?;
    text.push(b']')?;
    Ok(())
}

// Appends a word with general terms in parentheses.
#[cycle(put_general)]
fn put_function(word: &[u8], terms: &[GTerm], text: &mut Vec<u8>) -> Result<(), AllocError>
    ensures { OnOk result (text.new.items ≡ text.old.items
        ++ (word_text word.now ++ (codes "(" ++ (separated (codes ",") (map general_text terms.now) ++ codes ")")))) }
{
    put_word(text, word)?;
    text.push(b'(')?;
    put_generals(terms, text)?;
    text.push(b')')?;
    Ok(())
}

/// Appends a general term.
#[tactic(auto, using(crate::proofs::Equations::general_equations))]
#[cycle(put_general)]
pub fn put_general(term: &GTerm, text: &mut Vec<u8>) -> Result<(), AllocError>
    ensures { OnOk result (text.new.items ≡ text.old.items ++ general_text term.now) }
{
    match term {
        GTerm::Word(word) => put_word(text, word.as_slice()),
        GTerm::Func(word, terms) => put_function(word.as_slice(), terms.as_slice(), text),
        GTerm::Var(name) => text.extend_from_slice(name.as_slice()),
        GTerm::Number(number) => text.extend_from_slice(number.as_slice()),
        GTerm::Distinct(chars) => put_quoted(text, b'"', chars.as_slice()),
        GTerm::Formula(lang, formula) => put_embedded(*lang, formula.get(), text),
        GTerm::Term(term) => put_embedded_term(term, text),
        GTerm::List(terms) => put_list(terms.as_slice(), text),
        GTerm::Pair(left, right) => {
            put_general(left.get(), text)?;
            text.push(b':')?;
            put_general(right.get(), text)
        }
    }
}
