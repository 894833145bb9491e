//! What is printed.
ghost use Rattle.std.specs.Prelude.{◌≡◌, IfOk};
ghost use Rattle.canon_print.specs.Canonical.{formula_text, general_text, canonical_text};
ghost use Rattle.canon_print.specs.Words.{name_text};

use crate::formulas::put_formula;
use crate::general::put_general;
use crate::items::put_item;
use crate::words::put_name;
use std::alloc::Global;
use tptp_base::{GTerm, Item, Memory, Name, Surface, Text};

/// The canonical text of the items, each of which ends with a line feed.
pub fn print(alloc: Global, items: &[Item]) -> Result<Text, Memory>
    ensures { IfOk result (λ text. text ≡ canonical_text items.now) }
{
    let mut text = Vec::new(alloc);
    for item in items {
        put_item(item, &mut text)?;
    }
    Ok(Text::from_vec(text))
}

/// The formula's part of that text.
pub fn print_formula(alloc: Global, formula: &Surface) -> Result<Text, Memory>
    ensures { IfOk result (λ text. text ≡ formula_text formula.now) }
{
    let mut text = Vec::new(alloc);
    put_formula(formula, &mut text)?;
    Ok(Text::from_vec(text))
}

/// The general term's part of that text.
pub fn print_general(alloc: Global, term: &GTerm) -> Result<Text, Memory>
    ensures { IfOk result (λ text. text ≡ general_text term.now) }
{
    let mut text = Vec::new(alloc);
    put_general(term, &mut text)?;
    Ok(Text::from_vec(text))
}

/// The name's part of that text.
pub fn print_name(alloc: Global, name: &Name) -> Result<Text, Memory>
    ensures { IfOk result (λ text. text ≡ name_text name.now) }
{
    let mut text = Vec::new(alloc);
    put_name(&mut text, name)?;
    Ok(Text::from_vec(text))
}
