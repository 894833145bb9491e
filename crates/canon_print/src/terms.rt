// The text of terms, sorts and type lines.
ghost use Rattle.std.specs.Prelude.{◌≡◌, ◌++◌, OnOk, codes, map};
ghost use Rattle.canon_print.specs.Canonical as spec;
ghost use Rattle.canon_print.specs.Canonical.{term_text, terms_text, applied_text, sort_text};
ghost use Rattle.canon_print.specs.Words.{separated};

use crate::words::put_word;
use std::alloc::AllocError;
use tptp_base::{STerm, Shape, SortName, Typing};

/// Appends a term.
#[tactic(auto, using(crate::proofs::Equations::term_equations))]
#[cycle(put_term)]
pub fn put_term(term: &STerm, text: &mut Vec<u8>) -> Result<(), AllocError>
    ensures { OnOk result (text.new.items ≡ text.old.items ++ term_text term.now) }
{
    match term {
        STerm::Var(name) => text.extend_from_slice(name.as_slice()),
        STerm::App(word, terms) => put_applied(word.as_slice(), terms.as_slice(), text),
    }
}

/// Appends a word, with its arguments in parentheses where it has any.
#[tactic(auto, using(crate::proofs::Equations::term_equations))]
#[cycle(put_term)]
pub fn put_applied(word: &[u8], terms: &[STerm], text: &mut Vec<u8>) -> Result<(), AllocError>
    ensures { OnOk result (text.new.items ≡ text.old.items ++ applied_text word.now (terms_text terms.now)) }
{
    put_word(text, word)?;
    if let [first, others @ ..] = terms {
        text.push(b'(')?;
        put_term(first, text)?;
        'others: for other in others {
            text.push(b',')?;
            put_term(other, text)?;
        }
        text.push(b')')?;
    }
    Ok(())
}

/// Appends the name of a sort.
pub fn put_sort(sort: &SortName, text: &mut Vec<u8>) -> Result<(), AllocError>
    ensures { OnOk result (text.new.items ≡ text.old.items ++ sort_text sort.now) }
{
    match sort {
        SortName::Individual => text.extend_from_slice(b"$i"),
        SortName::Truth => text.extend_from_slice(b"$o"),
        SortName::Word(word) => put_word(text, word.as_slice()),
    }
}

// Appends sorts with stars between them.
fn put_product(sorts: &[SortName], text: &mut Vec<u8>) -> Result<(), AllocError>
    ensures { OnOk result (text.new.items ≡ text.old.items ++ separated (codes " * ") (map sort_text sorts.now)) }
{
    if let [first, others @ ..] = sorts {
        put_sort(first, text)?;
        'others: for other in others {
            text.extend_from_slice(b" * ")?;
            put_sort(other, text)?;
        }
    }
    Ok(())
}

// Appends the sorts of a symbol.
fn put_sorts(
    sorts: &[SortName],
    result_sort: &SortName,
    text: &mut Vec<u8>,
) -> Result<(), AllocError>
    ensures { OnOk result (text.new.items ≡ text.old.items
        ++ spec.shape_text (Shape.Symbol sorts.now result_sort.now)) }
{
    match sorts {
        [] => put_sort(result_sort, text),
        [one] => {
            put_sort(one, text)?;
            text.extend_from_slice(b" > ")?;
            put_sort(result_sort, text)
        }
        [_, _, ..] => {
            text.push(b'(')?;
            put_product(sorts, text)?;
            text.extend_from_slice(b") > ")?;
            put_sort(result_sort, text)
        }
    }
}

// Appends what a type line declares.
fn put_shape(shape: &Shape, text: &mut Vec<u8>) -> Result<(), AllocError>
    ensures { OnOk result (text.new.items ≡ text.old.items ++ spec.shape_text shape.now) }
{
    match shape {
        Shape::Sort => text.extend_from_slice(b"$tType"),
        Shape::Symbol(sorts, result_sort) => put_sorts(sorts.as_slice(), result_sort, text),
    }
}

/// Appends the body of a type line.
pub fn put_typing(typing: &Typing, text: &mut Vec<u8>) -> Result<(), AllocError>
    ensures { OnOk result (text.new.items ≡ text.old.items ++ spec.typing_text typing.now) }
{
    put_word(text, typing.name.as_slice())?;
    text.extend_from_slice(b": ")?;
    put_shape(&typing.shape, text)
}
