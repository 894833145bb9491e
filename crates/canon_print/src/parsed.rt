// The canonical text of what tokens spell.
ghost use Rattle.std.specs.Prelude.{◌≡◌, [], List, Ok, Err, IfOk, IfErr};
ghost use Rattle.tptp_base.specs.declared.item.Item.{Item as item};
ghost use Rattle.tptp_grammar.specs.Texts.{IsParsed};
ghost use Rattle.canon_print.specs.Canonical.{canonical_text};

use crate::items::put_item;
use std::alloc::Global;
use tptp_base::{Item, Memory, Text};
use tptp_grammar::{GrammarFault, Taker, parse_into};
use tptp_lexer::Tokens;

/// The canonical text of the items that it took.
#[derive(Drop)]
struct Printer {
    text: Vec<u8>,
}

impl Taker for Printer {
    ghost use Rattle.std.specs.Prelude.{ℕ};
    ghost use Rattle.canon_print.specs.Canonical.{item_text};

    ghost Part = { ℕ };

    ghost parts = { item_text };

    ghost kept = { λ printer. printer.text.items };

    fn take(&mut self, item: Item) -> Result<(), Memory> {
        put_item(&item, &mut self.text)?;
        Ok(())
    }
}

/// The canonical text of the items that the tokens spell. Each item is printed and let go before the next one is read.
///
/// # Errors
///
/// The first fault, as `parse` tells it.
pub fn print_parsed(alloc: Global, tokens: &Tokens<'_>) -> Result<Text, GrammarFault>
    ensures text { IfOk result (λ text. (items : List item) × IsParsed tokens.now (Ok items)
        × (text ≡ canonical_text items)) }
    ensures fault { IfErr result (λ fault. IsParsed tokens.now (Err fault)) }
{
    let text = empty_with_room(alloc, tokens.end.offset as usize);
    let mut printer = Printer { text };
    parse_into(alloc, tokens, &mut printer)?;
    Ok(Text::from_vec(printer.text))
}

// An empty text. Where memory allows, it has room for so many bytes.
fn empty_with_room(alloc: Global, bytes: usize) -> Vec<u8>
    ensures { result.items ≡ [] }
{
    match Vec::with_capacity(alloc, bytes) {
        Ok(text) => text,
        Err(_) => Vec::new(alloc),
    }
}
