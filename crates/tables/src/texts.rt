// What texts are read as.
ghost use Rattle.std.specs.Prelude.{◌≤◌, length};

use crate::graphs;
use crate::line::Line;
use crate::pieces::fed;
use crate::scene::{items_of, tokens_of};
use crate::tokens::{listed, placed, push_place};
use canon_print::{print_formula, print_general};
use std::alloc::{AllocError, Global};
use tptp_base::{Annotated, Body, Item, List, Memory, Region, Text, place_at};
use tptp_grammar::{GrammarFault, parse};
use tptp_lexer::{Style, tokens};

/// The answer of a call on a text:
///
/// - `tokens`, `derivation`: the tokens of the text in a problem or in a derivation, or the fault
/// - `fed`: the tokens of a problem's text that is fed in pieces of so many bytes, or the fault
/// - `part`: the places of the tokens in the middle one of three texts, and of its end; the text is that of file 2
/// - `place`: the place of an offset in file 7
/// - `cuts`: what is answered where the text is cut before a blank, or not cut, and does not end too early; cuts are
///   told by their offsets
/// - `formula`, `general`: the canonical text of a formula, or of a general term
/// - `graph`: the graph of a derivation
///
/// None where there is no such call.
pub fn found(alloc: Global, line: &Line<'_>) -> Option<String> {
    let text = line.first;
    match line.call {
        "tokens" => listed(alloc, tokens_of(alloc, text, Style::Problem)).ok(),
        "derivation" => listed(alloc, tokens_of(alloc, text, Style::Derivation)).ok(),
        "fed" => fed(alloc, text, line.parts),
        "part" => part(alloc, line.parts),
        "place" => place(alloc, text, line.parts),
        "cuts" => cuts(alloc, text.as_bytes()),
        "formula" => printed(alloc, format!(in alloc; "tff(a,plain,{text}).")),
        "general" => printed(alloc, format!(in alloc; "tff(a,plain,p,{text}).")),
        "graph" => graphs::found(alloc, line.parts),
        _ => None,
    }
}

fn part(alloc: Global, parts: &[&str]) -> Option<String> {
    match parts {
        [before, part, behind] => {
            let text = format!(in alloc; "{before}{part}{behind}").ok()?;
            let start = before.len();
            places(
                alloc,
                text.as_bytes(),
                (start, start.saturating_add(part.len())),
            )
        }
        _ => None,
    }
}

fn places(alloc: Global, text: &[u8], (start, end): (usize, usize)) -> Option<String> {
    if start > end || end > text.len() {
        return None;
    }
    let region = Region {
        start: start as u64,
        end: end as u64,
    };
    let tokens = tokens(alloc, 2, text, region, Style::Problem).ok()?;
    placed(alloc, &tokens).ok()
}

fn place(alloc: Global, text: &str, parts: &[&str]) -> Option<String> {
    let offset: u64 = parts.get(1)?.parse().ok()?;
    if offset > text.len() as u64 {
        return None;
    }
    let mut out = String::new(alloc);
    push_place(&mut out, place_at(7, text.as_bytes(), offset)).ok()?;
    Some(out)
}

fn cuts(alloc: Global, text: &[u8]) -> Option<String> {
    let mut out = String::new(alloc);
    push_cuts(alloc, &mut out, text)?;
    out.pop();
    Some(out)
}

// Appends what is answered for each cut, with a blank behind it.
fn push_cuts(alloc: Global, out: &mut String, text: &[u8]) -> Option<()> {
    for end in 0..text.len() {
        if text[end] == b' ' {
            push_cut(alloc, out, text, end)?;
        }
    }
    push_cut(alloc, out, text, text.len())
}

// Appends what is answered for the bytes before `end`, unless they end too early.
fn push_cut(alloc: Global, out: &mut String, text: &[u8], end: usize) -> Option<()>
    requires { end ≤ length text.now }
{
    let end = end as u64;
    let tokens = tokens(alloc, 0, text, Region { start: 0, end }, Style::Problem).ok()?;
    push_answer(out, end, parse(alloc, &tokens)).ok()
}

fn push_answer(
    out: &mut String,
    end: u64,
    answer: Result<List<Item>, GrammarFault>,
) -> Result<(), AllocError> {
    match answer {
        Ok(items) => write!(out, "{end}: {} items ", items.len()),
        Err(GrammarFault::End(place)) if place.offset == end => Ok(()),
        Err(fault) => write!(out, "{end}: {fault} "),
    }
}

// The canonical text of the general term that is the formula's source, or else of the formula.
fn printed(alloc: Global, source: Result<String, AllocError>) -> Option<String> {
    let source = source.ok()?;
    let items = items_of(alloc, source.as_str())?;
    match items.as_slice() {
        [Item::Formula(formula)] => printed_of(alloc, formula.get()),
        _ => None,
    }
}

fn printed_of(alloc: Global, formula: &Annotated) -> Option<String> {
    if let Some(source) = &formula.source {
        return string_of(alloc, print_general(alloc, source));
    }
    match &formula.body {
        Body::Logic(logic) => string_of(alloc, print_formula(alloc, logic)),
        Body::Typing(_) => None,
    }
}

fn string_of(alloc: Global, text: Result<Text, Memory>) -> Option<String> {
    let text = text.ok()?;
    String::from_utf8_lossy(alloc, text.as_slice()).ok()
}
