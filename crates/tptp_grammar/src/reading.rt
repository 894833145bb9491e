// All tokens of a text.
ghost use Rattle.std.specs.Prelude.{◌≡◌, ◌++◌, List, IfOk, IfErr, OnOk};
ghost use Rattle.std.specs.List.{flat_map};
ghost use Rattle.first_fault.specs.Nesting.{FirstOver};
ghost use Rattle.tptp_base.specs.declared.item.Item.{Item};
ghost use Rattle.tptp_lexer.specs.Dots.{is_comment};
ghost use Rattle.tptp_grammar.specs.Tokens.{Tokens as NestedTokens};
ghost use Rattle.tptp_grammar.specs.Files.{IsFile, Spells, SpellsWithin};
ghost use Rattle.tptp_grammar.specs.Faults as faults;
ghost use Rattle.tptp_grammar.specs.code.Dots as dots;
ghost use Rattle.tptp_grammar.specs.Answers as answers;
ghost use Rattle.tptp_grammar.specs.Texts.{IsParsed};
ghost use Rattle.tptp_grammar.specs.code.Answers as answers_code;

use crate::cursor::Cursor;
use crate::fault::GrammarFault;
use crate::items::item;
use crate::stop::Stop;
use crate::taker::Taker;
use std::alloc::{AllocError, AllocFailed, Global};
use tptp_base::{Item, List, Place};
use tptp_lexer::{Rest, Style, Token, Tokens};

// How deep a text may nest.
const MAX_NESTING: usize = 250;

/// Why an item is not read, and behind how many of its tokens.
#[derive(Clone, Copy, PartialEq, Eq)]
pub struct Refusal {
    pub stop: Stop,
    pub taken: usize,
}

impl From<AllocError> for Refusal {
    ghost use Rattle.std.specs.Prelude.{◌≡◌};
    ghost use Rattle.tptp_grammar.specs.declared.stop.Stop.TheVariants.{Memory};

    ghost from_gives = { λ _ e. e.stop ≡ Memory };

    fn from(_: AllocError) -> Refusal {
        Refusal {
            stop: Stop::Memory,
            taken: 0,
        }
    }
}

impl<T: Drop> From<AllocFailed<T>> for Refusal {
    ghost use Rattle.std.specs.Prelude.{◌≡◌};
    ghost use Rattle.tptp_grammar.specs.declared.stop.Stop.TheVariants.{Memory};

    ghost from_gives = { λ _ e. e.stop ≡ Memory };

    fn from(_: AllocFailed<T>) -> Refusal {
        Refusal {
            stop: Stop::Memory,
            taken: 0,
        }
    }
}

fn is_comment(token: &Token<'_>) -> bool
    ensures { result ≡ is_comment token.now }
{
    matches!(token, Token::Comment(_))
}

// An annotated formula or an include, from its first token on. The list has room for its tokens.
fn input<'a>(
    alloc: Global,
    style: Style,
    first: Token<'a>,
    place: Place,
    rest: &mut Rest<'a>,
    tokens: &mut Vec<Token<'a>>,
) -> Result<Item, Refusal>
    ensures ok { IfOk result (λ i. answers_code.ItemRead style first.entry place rest.old i rest.new) }
    ensures err { IfErr result (λ r. answers_code.Refuses style first.entry place rest.old r.stop r.taken) }
{
    tokens.clear();
    tokens.push(first)?;
    rest.take_through_dot(tokens)?;
    let given = tokens.len();
    let mut cursor = Cursor::new(tokens.as_slice());
    match item(alloc, &mut cursor, style, MAX_NESTING, place) {
        Ok(item) => Ok(item),
        Err(stop) => {
            let taken = given.saturating_sub(cursor.left());
            Err(Refusal { stop, taken })
        }
    }
}

/// A comment or an item, from its first token on.
pub fn take_turn<'a>(
    alloc: Global,
    style: Style,
    first: Token<'a>,
    place: Place,
    rest: &mut Rest<'a>,
    tokens: &mut Vec<Token<'a>>,
) -> Result<Item, Refusal>
    ensures ok { IfOk result (λ i. answers_code.Starts style first.entry place rest.old i rest.new) }
    ensures err { IfErr result (λ r. answers_code.StartFails style first.entry place rest.old r.stop r.taken) }
{
    match first {
        Token::Comment(text) => Ok(Item::Comment(text.to_text(alloc)?)),
        first => input(alloc, style, first, place, rest, tokens),
    }
}

// The first token behind so many, comments left out.
fn entry_behind<'a>(rest: Rest<'a>, count: usize) -> Option<(Token<'a>, Place)>
    ensures { result ≡ dots.entry_behind count rest.entry }
{
    let mut rest = rest;
    let mut left = count;
    'tokens: while let Some(entry) = rest.next_placed() {
        if !is_comment(&entry.0) {
            if left == 0 {
                return Some(entry);
            }
            left -= 1;
        }
    }
    None
}

fn is_defined_word(word: &[u8]) -> bool
    ensures { result ≡ faults.is_defined_word word.now }
{
    word == b"$true".as_slice()
        || word == b"$false".as_slice()
        || word == b"$i".as_slice()
        || word == b"$o".as_slice()
        || word == b"$tType".as_slice()
}

fn is_other_language(word: &[u8]) -> bool
    ensures { result ≡ faults.is_other_language word.now }
{
    word == b"thf".as_slice() || word == b"tcf".as_slice() || word == b"tpi".as_slice()
}

// Whether the token is of a part of TPTP that is left out.
fn is_outside(token: &Token<'_>) -> bool
    ensures { result ≡ faults.is_outside token.now }
{
    match token {
        Token::Number(_) => true,
        Token::Distinct(_) => true,
        Token::System(_) => true,
        Token::Dollar(word) => !is_defined_word(word.as_slice()),
        Token::Lower(word) => is_other_language(word.as_slice()),
        _ => false,
    }
}

fn refusal_at(entry: Option<(Token<'_>, Place)>, end: Place) -> GrammarFault
    ensures { result ≡ answers_code.refusal_at entry.entry end }
{
    match entry {
        Some((token, place)) => {
            if is_outside(&token) {
                GrammarFault::Profile(place)
            } else {
                GrammarFault::Token(place)
            }
        }
        None => GrammarFault::End(end),
    }
}

fn depth_at(entry: Option<(Token<'_>, Place)>, end: Place) -> GrammarFault
    ensures { result ≡ answers_code.depth_at entry.entry end }
{
    match entry {
        Some((_, place)) => GrammarFault::Deep(place),
        None => GrammarFault::Deep(end),
    }
}

fn fault_of(stop: Stop, entry: Option<(Token<'_>, Place)>, end: Place) -> GrammarFault
    ensures { result ≡ answers_code.fault_of stop entry.entry end }
{
    match stop {
        Stop::Memory => GrammarFault::Memory,
        Stop::Unexpected => refusal_at(entry, end),
        Stop::TooDeep => depth_at(entry, end),
    }
}

/// Gives away the one list of items that the tokens spell, each item as soon as it is read.
///
/// # Errors
///
/// The first fault, as `GrammarFault` tells them.
pub fn parse_into<T: Taker>(
    alloc: Global,
    tokens: &Tokens<'_>,
    into: &mut T,
) -> Result<(), GrammarFault>
    // What is read is what `parse` reads, and it is taken item by item.
    ensures taken { OnOk result ((items : List Item) × IsParsed tokens.now (Ok items)
        × (T.kept into.new ≡ T.kept into.old ++ flat_map T.parts items)) }
    // Each fault is the first one.
    ensures fault { IfErr result (λ fault. IsParsed tokens.now (Err fault)) }
{
    let mut rest = tokens.items.rest();
    let mut room = Vec::new(alloc);
    'tokens: while !rest.is_empty() {
        let start = rest.again();
        if let Some((first, place)) = rest.next_placed() {
            match take_turn(alloc, tokens.style, first, place, &mut rest, &mut room) {
                Ok(item) => into.take(item)?,
                Err(refusal) => {
                    let entry = entry_behind(start, refusal.taken);
                    return Err(fault_of(refusal.stop, entry, tokens.end));
                }
            }
        }
    }
    Ok(())
}

/// The one list of items that the tokens spell.
///
/// # Errors
///
/// The first fault, as `GrammarFault` tells them.
pub fn parse(alloc: Global, tokens: &Tokens<'_>) -> Result<List<Item>, GrammarFault>
    // What is read is spelled so, nested no deeper than the limit. Each fault is the first one.
    ensures answers { answers.Answers tokens.now.style tokens.now.items tokens.now.end result }
    // What is spelled within the limit is read, unless memory runs out.
    ensures only { (items : List Item) → SpellsWithin tokens.now.style faults.max_nesting items tokens.now.items
        → answers.IsRead items result }
    // What is spelled with tokens that are nested deeper is refused for that, unless memory runs out.
    ensures deep { (items : List Item) (us over : NestedTokens) → IsFile tokens.now.style items tokens.now.items us
        → FirstOver faults.max_nesting us over → answers.IsRefusedAsDeep result }
    // The tokens spell at most one list of items.
    ensures one { (first second : List Item) → Spells tokens.now.style first tokens.now.items
        → Spells tokens.now.style second tokens.now.items → first ≡ second }
{
    let mut found = List::new(alloc);
    parse_into(alloc, tokens, &mut found)?;
    Ok(found)
}
