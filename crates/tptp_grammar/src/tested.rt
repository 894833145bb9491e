//! Items that are read one by one, once all of them have been tested.
ghost use Rattle.std.specs.Prelude.{◌≡◌, [], ◌∷◌, Ok, Err, IfOk, IfErr, MatchOption};
ghost use Rattle.tptp_grammar.specs.Texts.{IsParsed};
ghost use Rattle.tptp_grammar.specs.code.ReadFile as spec;

use crate::fault::GrammarFault;
use crate::reading::{parse_into, take_turn};
use crate::stop::Stop;
use crate::taker::Taker;
use std::alloc::Global;
use std::marker::Model;
use tptp_base::{Item, Memory};
use tptp_lexer::{Rest, Style, Token, Tokens};

/// Takes items and keeps nothing of them.
#[derive(Drop)]
struct Tester;

impl Taker for Tester {
    ghost use Rattle.std.specs.Prelude.{[]};
    ghost use Rattle.tptp_base.specs.declared.item.Item.{Item};

    ghost Part = { Item };

    ghost parts = { λ _. [] };

    ghost kept = { λ _. [] };

    fn take(&mut self, _item: Item) -> Result<(), Memory> {
        Ok(())
    }
}

/// Tokens that were tested: they spell items.
#[derive(Drop)]
struct Tested<'a> {
    style: Style,
    rest: Rest<'a>,
}

impl<'a> Model for Tested<'a> {
    ghost use Rattle.std.specs.Prelude.{List};
    ghost use Rattle.std.specs.Coded.{coded_list};
    ghost use Rattle.tptp_base.specs.contracts.item.Item.{the_row};
    ghost use Rattle.tptp_base.specs.declared.item.Item.{Item};
    ghost use Rattle.tptp_grammar.specs.code.ReadFile.{AreRead, items_left};

    ghost Value = { List Item };

    ghost coded = { coded_list the_row.coded };

    ghost view = { λ it. items_left it.style it.rest };

    ghost invariant = { λ it. AreRead it.style it.rest };
}

impl<'a> Tested<'a> {
    // The next item, which is passed. The list is for its tokens.
    fn turn(&mut self, alloc: Global, room: &mut Vec<Token<'a>>) -> Result<Option<Item>, Memory>
        ensures { IfOk result (λ next. MatchOption next ((self.old ≡ []) × (self.new ≡ []))
            (λ item. self.old ≡ item ∷ self.new)) }
    {
        let style = self.style;
        let mut rest = self.rest.again();
        let Some((first, place)) = rest.next_placed() else {
            return Ok(None);
        };
        match take_turn(alloc, style, first, place, &mut rest, room) {
            Ok(item) => {
                *self = Tested { style, rest };
                Ok(Some(item))
            }
            Err(refusal) => Err(wanting(refusal.stop)),
        }
    }
}

// Of tokens that spell items, one is not read only where memory is wanting.
fn wanting(stop: Stop) -> Memory
    requires { stop ≡ Stop.Memory }
{
    match stop {
        Stop::Memory => Memory,
        Stop::Unexpected => unreachable!(),
        Stop::TooDeep => unreachable!(),
    }
}

/// The items of tokens that are still to be read.
#[derive(Drop)]
pub struct ItemsLeft<'a> {
    alloc: Global,
    tested: Tested<'a>,
    room: Vec<Token<'a>>,
}

impl<'a> Model for ItemsLeft<'a> {
    ghost use Rattle.std.specs.Prelude.{List};
    ghost use Rattle.std.specs.Coded.{coded_list};
    ghost use Rattle.tptp_base.specs.contracts.item.Item.{the_row};
    ghost use Rattle.tptp_base.specs.declared.item.Item.{Item};

    ghost Value = { List Item };

    ghost coded = { coded_list the_row.coded };

    ghost view = { λ it. it.tested };
}

impl<'a> ItemsLeft<'a> {
    /// The next item, which is passed.
    ///
    /// # Errors
    ///
    /// Only want of memory. The item can then be read again.
    pub fn next(&mut self) -> Result<Option<Item>, Memory>
        ensures next { IfOk result (λ next. MatchOption next ((self.old ≡ []) × (self.new ≡ []))
            (λ item. self.old ≡ item ∷ self.new)) }
    {
        self.tested.turn(self.alloc, &mut self.room)
    }
}

/// The one list of items that the tokens spell, to be read one by one. All tokens are tested before, and no item is
/// kept.
///
/// # Errors
///
/// The first fault, as `GrammarFault` tells them.
pub fn items_left<'a>(alloc: Global, tokens: &'a Tokens<'a>) -> Result<ItemsLeft<'a>, GrammarFault>
    // The items are those that the tokens spell.
    ensures spelled { IfOk result (λ items. IsParsed tokens.now (Ok items)) }
    // Each fault is the first one.
    ensures fault { IfErr result (λ fault. IsParsed tokens.now (Err fault)) }
{
    parse_into(alloc, tokens, &mut Tester)?;
    let tested = Tested {
        style: tokens.style,
        rest: tokens.items.rest(),
    };
    let room = Vec::new(alloc);
    Ok(ItemsLeft {
        alloc,
        tested,
        room,
    })
}
