// The productions of general terms, one function for each. `room` is the nesting that is left.
ghost use Rattle.std.specs.Prelude.{◌≡◌, IfOk};
ghost use Rattle.first_fault.specs.code.Reading.{separated, closed, mapped};
ghost use Rattle.tptp_base.specs.declared.item.GTerm.TheVariants as gt;
ghost use Rattle.tptp_grammar.specs.code.ReadTerms.{is_mark};
ghost use Rattle.tptp_grammar.specs.code.ReadGeneral as spec;
ghost use Rattle.tptp_grammar.specs.code.Outcomes.{Reads};

use crate::clauses::clause;
use crate::cursor::Cursor;
use crate::formulas::formula;
use crate::lists::{push_read, short_list};
use crate::stop::Stop;
use crate::terms::term;
use crate::typed_clauses::typed_clause;
use std::alloc::{AllocError, Global};
use tptp_base::{Boxed, GTerm, Lang, List, STerm, Surface, Text};
use tptp_lexer::{Mark, Token};

// A formula of the language.
fn formula_of(
    alloc: Global,
    tokens: &mut Cursor<'_>,
    lang: Lang,
    room: usize,
) -> Result<Surface, Stop>
    ensures { Reads (spec.formula_of lang room tokens.old) result tokens.new }
{
    match lang {
        Lang::Cnf => clause(alloc, tokens, room),
        Lang::Fof => formula(alloc, tokens, false, room),
        Lang::Tff => formula(alloc, tokens, true, room),
        Lang::Tcf => typed_clause(alloc, tokens, room),
    }
}

// The same in parentheses.
#[tactic(auto, unfolding(crate::specs::code::ReadGeneral::formula_open))]
fn formula_open(
    alloc: Global,
    tokens: &mut Cursor<'_>,
    lang: Lang,
    room: usize,
) -> Result<Surface, Stop>
    ensures { Reads (spec.formula_open lang room tokens.old) result tokens.new }
{
    if room == 0 {
        return Err(Stop::TooDeep);
    }
    tokens.skip();
    let found = formula_of(alloc, tokens, lang, room - 1)?;
    tokens.expect(Mark::Close)?;
    Ok(found)
}

#[tactic(auto, unfolding(crate::specs::code::ReadGeneral::formula_in))]
fn formula_in(
    alloc: Global,
    tokens: &mut Cursor<'_>,
    lang: Lang,
    room: usize,
) -> Result<Surface, Stop>
    ensures { Reads (spec.formula_in lang room tokens.old) result tokens.new }
{
    match tokens.peek() {
        Some(Token::Mark(Mark::Open)) => formula_open(alloc, tokens, lang, room),
        _ => Err(Stop::Unexpected),
    }
}

// A term in parentheses.
#[tactic(auto, unfolding(crate::specs::code::ReadGeneral::term_open))]
fn term_open(alloc: Global, tokens: &mut Cursor<'_>, room: usize) -> Result<STerm, Stop>
    ensures { Reads (spec.term_open room tokens.old) result tokens.new }
{
    if room == 0 {
        return Err(Stop::TooDeep);
    }
    tokens.skip();
    let found = term(alloc, tokens, room - 1)?;
    tokens.expect(Mark::Close)?;
    Ok(found)
}

#[tactic(auto, unfolding(crate::specs::code::ReadGeneral::term_in))]
fn term_in(alloc: Global, tokens: &mut Cursor<'_>, room: usize) -> Result<STerm, Stop>
    ensures { Reads (spec.term_in room tokens.old) result tokens.new }
{
    match tokens.peek() {
        Some(Token::Mark(Mark::Open)) => term_open(alloc, tokens, room),
        _ => Err(Stop::Unexpected),
    }
}

// The language of the formulas that the word embeds.
#[tactic(auto, unfolding(crate::specs::code::ReadGeneral::embedded))]
fn embedded(word: &[u8]) -> Option<Lang>
    ensures { result ≡ spec.embedded word.now }
{
    if word == b"$cnf".as_slice() {
        Some(Lang::Cnf)
    } else if word == b"$fof".as_slice() {
        Some(Lang::Fof)
    } else if word == b"$tff".as_slice() {
        Some(Lang::Tff)
    } else {
        None
    }
}

// A term that the word embeds.
fn term_data(
    alloc: Global,
    tokens: &mut Cursor<'_>,
    room: usize,
    word: &[u8],
) -> Result<GTerm, Stop>
    ensures { Reads (spec.term_data room word.now tokens.old) result tokens.new }
{
    if word == b"$fot".as_slice() {
        tokens.skip();
        Ok(GTerm::Term(term_in(alloc, tokens, room)?))
    } else {
        Err(Stop::Unexpected)
    }
}

// A formula or a term that the word embeds.
#[tactic(auto, unfolding(crate::specs::code::ReadGeneral::formula_data))]
fn formula_data(
    alloc: Global,
    tokens: &mut Cursor<'_>,
    room: usize,
    word: &[u8],
) -> Result<GTerm, Stop>
    ensures { Reads (spec.formula_data room word.now tokens.old) result tokens.new }
{
    match embedded(word) {
        Some(lang) => {
            tokens.skip();
            let found = Boxed::new(alloc, formula_in(alloc, tokens, lang, room)?)?;
            Ok(GTerm::Formula(lang, found))
        }
        None => term_data(alloc, tokens, room, word),
    }
}

// The arguments in their parentheses.
#[cycle(general)]
fn arguments(alloc: Global, tokens: &mut Cursor<'_>, room: usize) -> Result<List<GTerm>, Stop>
    ensures { Reads (spec.general_arguments room tokens.old) result tokens.new }
{
    if room == 0 {
        return Err(Stop::TooDeep);
    }
    tokens.skip();
    closed_list(alloc, tokens, room - 1, Mark::Close)
}

// General terms up to the mark that closes them.
#[cycle(general)]
fn closed_list(
    alloc: Global,
    tokens: &mut Cursor<'_>,
    room: usize,
    mark: Mark,
) -> Result<List<GTerm>, Stop>
    ensures { Reads (closed (is_mark mark)
        (separated (is_mark Mark.Comma) (spec.general room)) tokens.old) result tokens.new }
{
    let found = general_list(alloc, tokens, room);
    tokens.closed(found, mark)
}

// One or more general terms with commas between them.
#[cycle(general)]
fn general_list(alloc: Global, tokens: &mut Cursor<'_>, room: usize) -> Result<List<GTerm>, Stop>
    ensures { Reads (separated (is_mark Mark.Comma) (spec.general room) tokens.old) result tokens.new }
{
    let mut found = short_list(alloc);
    push_read(&mut found, general(alloc, tokens, room))?;
    'members: while tokens.eat(Mark::Comma) {
        push_read(&mut found, general(alloc, tokens, room))?;
    }
    Ok(found)
}

// What follows an opening bracket.
#[cycle(general)]
#[tactic(auto, unfolding(crate::specs::code::ReadGeneral::listed))]
fn listed(alloc: Global, tokens: &mut Cursor<'_>, room: usize) -> Result<List<GTerm>, Stop>
    ensures { Reads (spec.listed (spec.general room) tokens.old) result tokens.new }
{
    match tokens.peek() {
        Some(Token::Mark(Mark::CloseList)) => {
            tokens.skip();
            Ok(List::new(alloc))
        }
        _ => closed_list(alloc, tokens, room, Mark::CloseList),
    }
}

/// A list from its bracket on.
#[cycle(general)]
pub fn bracketed(alloc: Global, tokens: &mut Cursor<'_>, room: usize) -> Result<List<GTerm>, Stop>
    ensures { Reads (spec.general_bracketed room tokens.old) result tokens.new }
{
    if room == 0 {
        return Err(Stop::TooDeep);
    }
    tokens.skip();
    listed(alloc, tokens, room - 1)
}

// The right side of a pair from its colon on.
#[cycle(general)]
fn pair(alloc: Global, tokens: &mut Cursor<'_>, room: usize, left: GTerm) -> Result<GTerm, Stop>
    ensures { Reads (spec.general_pair room left tokens.old) result tokens.new }
{
    if room == 0 {
        return Err(Stop::TooDeep);
    }
    tokens.skip();
    right_side(alloc, tokens, room - 1, left)
}

// The pair of the two.
fn pair_of(alloc: Global, left: Boxed<GTerm>, right: GTerm) -> Result<GTerm, AllocError>
    ensures { IfOk result (λ whole. whole ≡ gt.Pair left right) }
{
    Ok(GTerm::Pair(left, Boxed::new(alloc, right)?))
}

// A pair from its right side on.
#[cycle(general)]
fn right_side(
    alloc: Global,
    tokens: &mut Cursor<'_>,
    room: usize,
    left: GTerm,
) -> Result<GTerm, Stop>
    ensures { Reads (mapped (gt.Pair left) (spec.general room tokens.old)) result tokens.new }
{
    let left = Boxed::new(alloc, left)?;
    let right = general(alloc, tokens, room)?;
    Ok(pair_of(alloc, left, right)?)
}

// What follows a word.
#[cycle(general)]
#[tactic(auto, unfolding(crate::specs::code::ReadGeneral::general_applied))]
fn applied(alloc: Global, tokens: &mut Cursor<'_>, room: usize, name: Text) -> Result<GTerm, Stop>
    ensures { Reads (spec.general_applied (spec.nesting room) name tokens.old) result tokens.new }
{
    match tokens.peek() {
        Some(Token::Mark(Mark::Open)) => { Ok(GTerm::Func(name, arguments(alloc, tokens, room)?)) }
        _ => Ok(GTerm::Word(name)),
    }
}

// A general term that may be the left side of a pair.
#[cycle(general)]
#[tactic(auto, unfolding(crate::specs::code::ReadGeneral::general_data_by))]
fn data_term(alloc: Global, tokens: &mut Cursor<'_>, room: usize) -> Result<GTerm, Stop>
    ensures { Reads (spec.general_data_by room (spec.nesting room) tokens.old) result tokens.new }
{
    match tokens.peek() {
        Some(Token::Lower(name)) => {
            let name = name.to_text(alloc)?;
            tokens.skip();
            applied(alloc, tokens, room, name)
        }
        Some(Token::Quoted(name)) => {
            let name = name.to_text(alloc)?;
            tokens.skip();
            applied(alloc, tokens, room, name)
        }
        Some(Token::Upper(name)) => {
            let name = name.to_text(alloc)?;
            tokens.skip();
            Ok(GTerm::Var(name))
        }
        Some(Token::Number(number)) => {
            let number = number.to_text(alloc)?;
            tokens.skip();
            Ok(GTerm::Number(number))
        }
        Some(Token::Distinct(text)) => {
            let text = text.to_text(alloc)?;
            tokens.skip();
            Ok(GTerm::Distinct(text))
        }
        Some(Token::Dollar(word)) => {
            let word = word.as_slice();
            formula_data(alloc, tokens, room, word)
        }
        _ => Err(Stop::Unexpected),
    }
}

// What follows a general term that may be the left side of a pair.
#[cycle(general)]
#[tactic(auto, unfolding(crate::specs::code::ReadGeneral::paired))]
fn paired(alloc: Global, tokens: &mut Cursor<'_>, room: usize, left: GTerm) -> Result<GTerm, Stop>
    ensures { Reads (spec.paired (spec.nesting room) left tokens.old) result tokens.new }
{
    match tokens.peek() {
        Some(Token::Mark(Mark::Colon)) => pair(alloc, tokens, room, left),
        _ => Ok(left),
    }
}

/// A general term.
#[cycle(general)]
#[tactic(auto, unfolding(crate::specs::code::ReadGeneral::general, crate::specs::code::ReadGeneral::general_by))]
pub fn general(alloc: Global, tokens: &mut Cursor<'_>, room: usize) -> Result<GTerm, Stop>
    ensures { Reads (spec.general room tokens.old) result tokens.new }
{
    match tokens.peek() {
        Some(Token::Mark(Mark::OpenList)) => Ok(GTerm::List(bracketed(alloc, tokens, room)?)),
        _ => {
            let left = data_term(alloc, tokens, room)?;
            paired(alloc, tokens, room, left)
        }
    }
}
