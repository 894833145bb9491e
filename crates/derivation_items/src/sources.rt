// Sources of lines.
ghost use Rattle.std.specs.Prelude.{◌≡◌, ◌∷◌, ℕ, [], List as list, IfOk, codes, map};
ghost use Rattle.tptp_base.specs.declared.item.GTerm.TheVariants as general;
ghost use Rattle.derivation_items.specs.Sources.{inference_term, name_term, source_term};

use crate::line::LineSource;
use std::alloc::Global;
use tptp_base::{GTerm, List, Memory, Name, Text};

/// The source, in a derivation from the problem of that file.
pub(crate) fn source_of(alloc: Global, file: &[u8], source: &LineSource) -> Result<GTerm, Memory>
    ensures { IfOk result (λ term. term ≡ source_term file.now source.now) }
{
    match source {
        LineSource::Given(name) => file_record(alloc, file, name),
        LineSource::Skolemized(line) => inference_from(alloc, b"skolemize", b"esa", line),
        LineSource::ClauseOf(line) => inference_from(alloc, b"clause", b"thm", line),
        LineSource::Inferred(lines) => inference(
            alloc,
            b"infer",
            b"thm",
            words(alloc, lines.as_slice())?,
        ),
    }
}

// The record of a formula of a file.
#[inline(never)]
fn file_record(alloc: Global, file: &[u8], name: &Name) -> Result<GTerm, Memory>
    ensures { IfOk result (λ term. term ≡ source_term file.now (LineSource.Given name.now)) }
{
    let mut args = List::new(alloc);
    args.push(word(alloc, file)?)?;
    args.push(name_of(alloc, name)?)?;
    function(alloc, b"file", args)
}

// The name as a term.
fn name_of(alloc: Global, name: &Name) -> Result<GTerm, Memory>
    ensures { IfOk result (λ term. term ≡ name_term name.now) }
{
    match name {
        Name::Word(text) => word(alloc, text.as_slice()),
        Name::Integer(text) => Ok(GTerm::Number(Text::from_slice(alloc, text.as_slice())?)),
    }
}

// The record of an inference from one line.
#[inline(never)]
fn inference_from(alloc: Global, rule: &[u8], status: &[u8], line: &Text) -> Result<GTerm, Memory>
    ensures { IfOk result (λ term. term ≡ inference_term rule.now status.now (line.now ∷ [])) }
{
    let mut parents = List::new(alloc);
    parents.push(word(alloc, line.as_slice())?)?;
    inference(alloc, rule, status, parents)
}

// The record of an inference from parents.
#[inline(never)]
fn inference(
    alloc: Global,
    rule: &[u8],
    status: &[u8],
    parents: List<GTerm>,
) -> Result<GTerm, Memory>
    ensures { IfOk result (λ term. (names : list (list ℕ)) → parents ≡ map general.Word names
        → term ≡ inference_term rule.now status.now names) }
{
    let mut args = List::new(alloc);
    args.push(word(alloc, rule)?)?;
    args.push(GTerm::List(status_list(alloc, status)?))?;
    args.push(GTerm::List(parents))?;
    function(alloc, b"inference", args)
}

// The status, alone in a list.
fn status_list(alloc: Global, status: &[u8]) -> Result<List<GTerm>, Memory>
    ensures { IfOk result (λ terms. terms ≡ general.Func (codes "status") (general.Word status.now ∷ []) ∷ []) }
{
    let mut args = List::new(alloc);
    args.push(word(alloc, status)?)?;
    let mut list = List::new(alloc);
    list.push(function(alloc, b"status", args)?)?;
    Ok(list)
}

fn function(alloc: Global, name: &[u8], args: List<GTerm>) -> Result<GTerm, Memory>
    ensures { IfOk result (λ term. term ≡ general.Func name.now args) }
{
    Ok(GTerm::Func(Text::from_slice(alloc, name)?, args))
}

fn word(alloc: Global, text: &[u8]) -> Result<GTerm, Memory>
    ensures { IfOk result (λ term. term ≡ general.Word text.now) }
{
    Ok(GTerm::Word(Text::from_slice(alloc, text)?))
}

fn words(alloc: Global, texts: &[Text]) -> Result<List<GTerm>, Memory>
    ensures { IfOk result (λ terms. terms ≡ map general.Word texts.now) }
{
    let mut terms = List::new(alloc);
    for text in texts {
        terms.push(word(alloc, text.as_slice())?)?;
    }
    Ok(terms)
}
