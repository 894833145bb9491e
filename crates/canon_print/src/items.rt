// The text of items.
ghost use Rattle.std.specs.Prelude.{◌≡◌, ◌++◌, OnOk, codes, map, option_map};
ghost use Rattle.canon_print.specs.Canonical as spec;
ghost use Rattle.canon_print.specs.Words.{name_text, separated};
ghost use Rattle.tptp_grammar.specs.Tokens as tokens;

use crate::formulas::{put_formula, put_typed_clause};
use crate::general::{put_general, put_list};
use crate::terms::put_typing;
use crate::words::{put_name, put_quoted};
use std::alloc::AllocError;
use tptp_base::{Annotated, Body, GTerm, Include, Item, Lang, List, Name, Role, Surface};

// The word before an annotated formula.
fn lang_text(lang: Lang) -> &'static [u8]
    ensures { result.now ≡ tokens.lang_text lang }
{
    match lang {
        Lang::Cnf => b"cnf",
        Lang::Fof => b"fof",
        Lang::Tff => b"tff",
        Lang::Tcf => b"tcf",
    }
}

fn role_text(role: Role) -> &'static [u8]
    ensures { result.now ≡ tokens.role_text role }
{
    match role {
        Role::Axiom => b"axiom",
        Role::Hypothesis => b"hypothesis",
        Role::Definition => b"definition",
        Role::Assumption => b"assumption",
        Role::Lemma => b"lemma",
        Role::Theorem => b"theorem",
        Role::Corollary => b"corollary",
        Role::Conjecture => b"conjecture",
        Role::NegatedConjecture => b"negated_conjecture",
        Role::Plain => b"plain",
        Role::Typing => b"type",
        Role::FiDomain => b"fi_domain",
        Role::FiFunctors => b"fi_functors",
        Role::FiPredicates => b"fi_predicates",
        Role::Unknown => b"unknown",
    }
}

// Appends the formula of a language.
fn put_logic(lang: Lang, formula: &Surface, text: &mut Vec<u8>) -> Result<(), AllocError>
    ensures { OnOk result (text.new.items ≡ text.old.items ++ spec.logic_text lang formula.now) }
{
    match lang {
        Lang::Tcf => put_typed_clause(formula, text),
        Lang::Cnf | Lang::Fof | Lang::Tff => put_formula(formula, text),
    }
}

// Appends the body of an annotated formula.
fn put_body(lang: Lang, body: &Body, text: &mut Vec<u8>) -> Result<(), AllocError>
    ensures { OnOk result (text.new.items ≡ text.old.items ++ spec.body_text lang body.now) }
{
    match body {
        Body::Logic(formula) => put_logic(lang, formula, text),
        Body::Typing(typing) => put_typing(typing, text),
    }
}

// Appends the first line of an annotated formula, and the blanks of the second.
fn put_head(annotated: &Annotated, text: &mut Vec<u8>) -> Result<(), AllocError>
    ensures { OnOk result (text.new.items ≡ text.old.items ++ spec.head_text annotated.now) }
{
    text.extend_from_slice(lang_text(annotated.lang))?;
    text.push(b'(')?;
    put_name(text, &annotated.name)?;
    text.push(b',')?;
    text.extend_from_slice(role_text(annotated.role))?;
    text.extend_from_slice(b",\n    ")
}

// Appends the useful information.
fn put_info(info: &Option<List<GTerm>>, text: &mut Vec<u8>) -> Result<(), AllocError>
    ensures { OnOk result (text.new.items ≡ text.old.items ++ spec.info_text info.now) }
{
    match info {
        Some(terms) => {
            text.push(b',')?;
            put_list(terms.as_slice(), text)
        }
        None => Ok(()),
    }
}

// Appends the source and the useful information.
fn put_annotations(
    source: &Option<GTerm>,
    info: &Option<List<GTerm>>,
    text: &mut Vec<u8>,
) -> Result<(), AllocError>
    ensures { OnOk result (text.new.items ≡ text.old.items ++ spec.annotations_text source.now info.now) }
{
    match source {
        Some(source) => {
            text.extend_from_slice(b",\n    ")?;
            put_general(source, text)?;
            put_info(info, text)
        }
        None => Ok(()),
    }
}

// Appends an annotated formula.
fn put_annotated(annotated: &Annotated, text: &mut Vec<u8>) -> Result<(), AllocError>
    ensures { OnOk result (text.new.items ≡ text.old.items ++ spec.annotated_text annotated.now) }
{
    put_head(annotated, text)?;
    put_body(annotated.lang, &annotated.body, text)?;
    put_annotations(&annotated.source, &annotated.info, text)?;
    text.extend_from_slice(b").\n")
}

// Appends names with commas between them.
fn put_names(names: &[Name], text: &mut Vec<u8>) -> Result<(), AllocError>
    ensures { OnOk result (text.new.items ≡ text.old.items ++ separated (codes ",") (map name_text names.now)) }
{
    if let [first, others @ ..] = names {
        put_name(text, first)?;
        'others: for other in others {
            text.push(b',')?;
            put_name(text, other)?;
        }
    }
    Ok(())
}

// Appends the selection of an include.
fn put_selection(names: &Option<List<Name>>, text: &mut Vec<u8>) -> Result<(), AllocError>
    ensures { OnOk result (text.new.items ≡ text.old.items ++ spec.selection_text names.now) }
{
    match names {
        Some(names) => {
            text.extend_from_slice(b",[")?;
            put_names(names.as_slice(), text)?;
            text.push(b']')?;
            Ok(())
        }
        None => Ok(()),
    }
}

// Appends an include.
fn put_include(include: &Include, text: &mut Vec<u8>) -> Result<(), AllocError>
    ensures { OnOk result (text.new.items ≡ text.old.items ++ spec.include_text include.now) }
{
    text.extend_from_slice(b"include(")?;
    put_quoted(text, b'\'', include.file.as_slice())?;
    put_selection(&include.names, text)?;
    text.extend_from_slice(b").\n")
}

/// Appends an item, with its line feed.
pub fn put_item(item: &Item, text: &mut Vec<u8>) -> Result<(), AllocError>
    ensures { OnOk result (text.new.items ≡ text.old.items ++ spec.item_text item.now) }
{
    match item {
        Item::Comment(comment) => {
            text.extend_from_slice(comment.as_slice())?;
            text.push(b'\n')?;
            Ok(())
        }
        Item::Formula(annotated) => put_annotated(annotated.get(), text),
        Item::Include(include) => put_include(include, text),
    }
}
