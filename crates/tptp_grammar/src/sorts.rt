// The productions of sorts and type lines, one function for each. `room` is the nesting that is left.
ghost use Rattle.std.specs.Prelude.{◌∷◌, []};
ghost use Rattle.first_fault.specs.code.Reading.{closed, separated};
ghost use Rattle.tptp_grammar.specs.code.ReadTerms.{is_mark};
ghost use Rattle.tptp_grammar.specs.code.ReadTypes as spec;
ghost use Rattle.tptp_grammar.specs.code.Outcomes.{Reads};

use crate::cursor::Cursor;
use crate::lists::{in_front, one_of, short_list};
use crate::stop::Stop;
use std::alloc::Global;
use tptp_base::{List, Shape, SortName, Text, Typing};
use tptp_lexer::{Mark, Token};

/// The sort of an argument.
#[tactic(auto, unfolding(crate::specs::code::ReadTypes::argument_sort))]
pub fn argument_sort(alloc: Global, tokens: &mut Cursor<'_>) -> Result<SortName, Stop>
    ensures { Reads (spec.argument_sort tokens.old) result tokens.new }
{
    match tokens.peek() {
        Some(Token::Lower(name)) => {
            let name = name.to_text(alloc)?;
            tokens.skip();
            Ok(SortName::Word(name))
        }
        Some(Token::Quoted(name)) => {
            let name = name.to_text(alloc)?;
            tokens.skip();
            Ok(SortName::Word(name))
        }
        Some(Token::Dollar(word)) => {
            if word.as_slice() == b"$i".as_slice() {
                tokens.skip();
                Ok(SortName::Individual)
            } else {
                Err(Stop::Unexpected)
            }
        }
        _ => Err(Stop::Unexpected),
    }
}

// The sort of a result.
#[tactic(auto, unfolding(crate::specs::code::ReadTypes::result_sort))]
fn result_sort(alloc: Global, tokens: &mut Cursor<'_>) -> Result<SortName, Stop>
    ensures { Reads (spec.result_sort tokens.old) result tokens.new }
{
    match tokens.peek() {
        Some(Token::Dollar(word)) => {
            if word.as_slice() == b"$o".as_slice() {
                tokens.skip();
                Ok(SortName::Truth)
            } else {
                argument_sort(alloc, tokens)
            }
        }
        _ => argument_sort(alloc, tokens),
    }
}

// `>` and the result of a map from these sorts.
#[tactic(auto, unfolding(crate::specs::code::ReadTypes::map_from))]
fn map_from(alloc: Global, tokens: &mut Cursor<'_>, sorts: List<SortName>) -> Result<Shape, Stop>
    ensures { Reads (spec.map_from sorts tokens.old) result tokens.new }
{
    tokens.expect(Mark::Greater)?;
    let result = result_sort(alloc, tokens)?;
    Ok(Shape::Symbol(sorts, result))
}

// One or more sorts with stars between them.
fn factors(alloc: Global, tokens: &mut Cursor<'_>) -> Result<List<SortName>, Stop>
    ensures { Reads (separated (is_mark Mark.Star) spec.argument_sort tokens.old) result tokens.new }
{
    let mut found = short_list(alloc);
    found.push(argument_sort(alloc, tokens)?)?;
    'members: while tokens.eat(Mark::Star) {
        found.push(argument_sort(alloc, tokens)?)?;
    }
    Ok(found)
}

// The same up to the closing parenthesis.
fn closed_factors(alloc: Global, tokens: &mut Cursor<'_>) -> Result<List<SortName>, Stop>
    ensures { Reads (closed (is_mark Mark.Close)
        (separated (is_mark Mark.Star) spec.argument_sort) tokens.old) result tokens.new }
{
    let found = factors(alloc, tokens)?;
    tokens.expect(Mark::Close)?;
    Ok(found)
}

// A map of a product, from its first star on.
fn product(alloc: Global, tokens: &mut Cursor<'_>, first: SortName) -> Result<Shape, Stop>
    ensures { Reads (spec.product first tokens.old) result tokens.new }
{
    tokens.skip();
    let others = closed_factors(alloc, tokens)?;
    let sorts = in_front(alloc, first, others)?;
    map_from(alloc, tokens, sorts)
}

// A map of one sort, from its arrow on.
fn unary(alloc: Global, tokens: &mut Cursor<'_>, first: SortName) -> Result<Shape, Stop>
    ensures { Reads (spec.map_from (first ∷ []) tokens.old) result tokens.new }
{
    let sorts = one_of(alloc, first)?;
    map_from(alloc, tokens, sorts)
}

// What follows a parenthesis and a sort.
#[tactic(auto, unfolding(crate::specs::code::ReadTypes::inside_from))]
fn inside_from(alloc: Global, tokens: &mut Cursor<'_>, first: SortName) -> Result<Shape, Stop>
    ensures { Reads (spec.inside_from first tokens.old) result tokens.new }
{
    match tokens.peek() {
        Some(Token::Mark(Mark::Star)) => product(alloc, tokens, first),
        _ => {
            let found = unary(alloc, tokens, first)?;
            tokens.expect(Mark::Close)?;
            Ok(found)
        }
    }
}

// What follows a parenthesis in a map.
#[cycle(mapping)]
#[tactic(auto, unfolding(crate::specs::code::ReadTypes::inside))]
fn inside(alloc: Global, tokens: &mut Cursor<'_>, room: usize) -> Result<Shape, Stop>
    ensures { Reads (spec.inside (spec.mapping room) tokens.old) result tokens.new }
{
    match tokens.peek() {
        Some(Token::Mark(Mark::Open)) => {
            let found = mapping(alloc, tokens, room)?;
            tokens.expect(Mark::Close)?;
            Ok(found)
        }
        _ => {
            let first = argument_sort(alloc, tokens)?;
            inside_from(alloc, tokens, first)
        }
    }
}

// A map.
#[cycle(mapping)]
#[tactic(auto, unfolding(crate::specs::code::ReadTypes::mapping, crate::specs::code::ReadTypes::mapping_by))]
fn mapping(alloc: Global, tokens: &mut Cursor<'_>, room: usize) -> Result<Shape, Stop>
    ensures { Reads (spec.mapping room tokens.old) result tokens.new }
{
    match tokens.peek() {
        Some(Token::Mark(Mark::Open)) => map_open(alloc, tokens, room),
        _ => {
            let first = argument_sort(alloc, tokens)?;
            unary(alloc, tokens, first)
        }
    }
}

// A map that begins with a parenthesis.
#[cycle(mapping)]
#[tactic(auto, unfolding(crate::specs::code::ReadTypes::map_open, crate::specs::code::ReadTypes::mapping))]
fn map_open(alloc: Global, tokens: &mut Cursor<'_>, room: usize) -> Result<Shape, Stop>
    ensures { Reads (spec.map_open room tokens.old) result tokens.new }
{
    if room == 0 {
        return Err(Stop::TooDeep);
    }
    tokens.skip();
    inside(alloc, tokens, room - 1)
}

// What follows a sort that stands first.
#[tactic(auto, unfolding(crate::specs::code::ReadTypes::after_sort))]
fn after_sort(alloc: Global, tokens: &mut Cursor<'_>, first: SortName) -> Result<Shape, Stop>
    ensures { Reads (spec.after_sort first tokens.old) result tokens.new }
{
    match tokens.peek() {
        Some(Token::Mark(Mark::Greater)) => unary(alloc, tokens, first),
        _ => Ok(Shape::Symbol(List::new(alloc), first)),
    }
}

// A shape that begins with a sort.
fn from_sort(alloc: Global, tokens: &mut Cursor<'_>) -> Result<Shape, Stop>
    ensures { Reads (spec.from_sort tokens.old) result tokens.new }
{
    let first = argument_sort(alloc, tokens)?;
    after_sort(alloc, tokens, first)
}

// A shape that begins with this word.
fn dollar_shape(alloc: Global, tokens: &mut Cursor<'_>, word: &[u8]) -> Result<Shape, Stop>
    ensures { Reads (spec.dollar_shape word.now tokens.old) result tokens.new }
{
    if word == b"$tType".as_slice() {
        tokens.skip();
        Ok(Shape::Sort)
    } else if word == b"$o".as_slice() {
        tokens.skip();
        Ok(Shape::Symbol(List::new(alloc), SortName::Truth))
    } else {
        from_sort(alloc, tokens)
    }
}

// What a type line declares of its name.
#[tactic(auto, unfolding(crate::specs::code::ReadTypes::shape))]
fn shape(alloc: Global, tokens: &mut Cursor<'_>, room: usize) -> Result<Shape, Stop>
    ensures { Reads (spec.shape room tokens.old) result tokens.new }
{
    match tokens.peek() {
        Some(Token::Mark(Mark::Open)) => map_open(alloc, tokens, room),
        Some(Token::Dollar(word)) => {
            let word = word.as_slice();
            dollar_shape(alloc, tokens, word)
        }
        _ => from_sort(alloc, tokens),
    }
}

// What follows the name.
#[tactic(auto, unfolding(crate::specs::code::ReadTypes::typed))]
fn typed(alloc: Global, tokens: &mut Cursor<'_>, room: usize, name: Text) -> Result<Typing, Stop>
    ensures { Reads (spec.typed room name tokens.old) result tokens.new }
{
    tokens.expect(Mark::Colon)?;
    let shape = shape(alloc, tokens, room)?;
    Ok(Typing { name, shape })
}

/// The body of a type line.
#[cycle(typing)]
#[tactic(auto, unfolding(crate::specs::code::ReadTypes::typing, crate::specs::code::ReadTypes::typing_by))]
pub fn typing(alloc: Global, tokens: &mut Cursor<'_>, room: usize) -> Result<Typing, Stop>
    ensures { Reads (spec.typing room tokens.old) result tokens.new }
{
    match tokens.peek() {
        Some(Token::Mark(Mark::Open)) => typing_open(alloc, tokens, room),
        Some(Token::Lower(name)) => {
            let name = name.to_text(alloc)?;
            tokens.skip();
            typed(alloc, tokens, room, name)
        }
        Some(Token::Quoted(name)) => {
            let name = name.to_text(alloc)?;
            tokens.skip();
            typed(alloc, tokens, room, name)
        }
        _ => Err(Stop::Unexpected),
    }
}

// The same in parentheses.
#[cycle(typing)]
#[tactic(auto, unfolding(crate::specs::code::ReadTypes::typing_open, crate::specs::code::ReadTypes::typing))]
fn typing_open(alloc: Global, tokens: &mut Cursor<'_>, room: usize) -> Result<Typing, Stop>
    ensures { Reads (spec.typing_open room tokens.old) result tokens.new }
{
    if room == 0 {
        return Err(Stop::TooDeep);
    }
    tokens.skip();
    closed_typing(alloc, tokens, room - 1)
}

// The same up to the closing parenthesis.
#[cycle(typing)]
fn closed_typing(alloc: Global, tokens: &mut Cursor<'_>, room: usize) -> Result<Typing, Stop>
    ensures { Reads (closed (is_mark Mark.Close) (spec.typing room) tokens.old) result tokens.new }
{
    let found = typing(alloc, tokens, room)?;
    tokens.expect(Mark::Close)?;
    Ok(found)
}
