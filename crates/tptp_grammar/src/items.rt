// The productions of annotated formulas and includes, one function for each. `room` is the nesting that is left.
ghost use Rattle.std.specs.Prelude.{◌≡◌};
ghost use Rattle.first_fault.specs.code.Reading.{separated, opened, expect};
ghost use Rattle.tptp_base.specs.Roles.{is_typing};
ghost use Rattle.tptp_grammar.specs.Items as items;
ghost use Rattle.tptp_grammar.specs.code.ReadTerms.{is_mark};
ghost use Rattle.tptp_grammar.specs.code.ReadItems as spec;
ghost use Rattle.tptp_grammar.specs.code.Outcomes.{Reads};

use crate::clauses::clause;
use crate::cursor::Cursor;
use crate::formulas::formula;
use crate::general::{bracketed, general};
use crate::lists::short_list;
use crate::sorts::typing;
use crate::stop::Stop;
use crate::typed_clauses::typed_clause;
use crate::words::{is_integer, lang_of, role_of};
use std::alloc::Global;
use tptp_base::{
    Annotated, Body, Boxed, GTerm, Include, Item, Lang, List, Name, Place, Role, Text,
};
use tptp_lexer::{Mark, Style, Token};

// The name of a formula.
#[tactic(auto, unfolding(crate::specs::code::ReadItems::name))]
fn name(alloc: Global, tokens: &mut Cursor<'_>) -> Result<Name, Stop>
    ensures { Reads (spec.name tokens.old) result tokens.new }
{
    match tokens.peek() {
        Some(Token::Lower(word)) => {
            let word = word.to_text(alloc)?;
            tokens.skip();
            Ok(Name::Word(word))
        }
        Some(Token::Quoted(word)) => {
            let word = word.to_text(alloc)?;
            tokens.skip();
            Ok(Name::Word(word))
        }
        Some(Token::Number(number)) => {
            if is_integer(number.as_slice()) {
                let number = number.to_text(alloc)?;
                tokens.skip();
                Ok(Name::Integer(number))
            } else {
                Err(Stop::Unexpected)
            }
        }
        _ => Err(Stop::Unexpected),
    }
}

// A role.
#[tactic(auto, unfolding(crate::specs::code::ReadItems::role))]
fn role(tokens: &mut Cursor<'_>) -> Result<Role, Stop>
    ensures { Reads (spec.role tokens.old) result tokens.new }
{
    match tokens.peek() {
        Some(Token::Lower(word)) => match role_of(word.as_slice()) {
            Some(role) => {
                tokens.skip();
                Ok(role)
            }
            None => Err(Stop::Unexpected),
        },
        _ => Err(Stop::Unexpected),
    }
}

// The body of a typed formula or a type line.
fn typed_body(alloc: Global, tokens: &mut Cursor<'_>, role: Role, room: usize) -> Result<Body, Stop>
    ensures { Reads (spec.body_of Lang.Tff (is_typing role) room tokens.old) result tokens.new }
{
    match role {
        Role::Typing => Ok(Body::Typing(typing(alloc, tokens, room)?)),
        _ => Ok(Body::Logic(formula(alloc, tokens, true, room)?)),
    }
}

// The body of an annotated formula.
#[tactic(auto, unfolding(crate::specs::code::ReadItems::body))]
fn body(
    alloc: Global,
    tokens: &mut Cursor<'_>,
    lang: Lang,
    role: Role,
    room: usize,
) -> Result<Body, Stop>
    ensures { Reads (spec.body lang role room tokens.old) result tokens.new }
{
    match lang {
        Lang::Cnf => Ok(Body::Logic(clause(alloc, tokens, room)?)),
        Lang::Fof => Ok(Body::Logic(formula(alloc, tokens, false, room)?)),
        Lang::Tff => typed_body(alloc, tokens, role, room),
        Lang::Tcf => Ok(Body::Logic(typed_clause(alloc, tokens, room)?)),
    }
}

// The tokens that end an item.
fn ended(tokens: &mut Cursor<'_>) -> Result<(), Stop>
    ensures { Reads (opened (is_mark Mark.Close) (expect (is_mark Mark.Dot)) tokens.old) result tokens.new }
{
    tokens.expect(Mark::Close)?;
    tokens.expect(Mark::Dot)
}

// The useful information.
#[tactic(auto, unfolding(crate::specs::code::ReadItems::info))]
fn info(alloc: Global, tokens: &mut Cursor<'_>, room: usize) -> Result<List<GTerm>, Stop>
    ensures { Reads (spec.info room tokens.old) result tokens.new }
{
    match tokens.peek() {
        Some(Token::Mark(Mark::OpenList)) => bracketed(alloc, tokens, room),
        _ => Err(Stop::Unexpected),
    }
}

type Annotations = (Option<GTerm>, Option<List<GTerm>>);

// What follows the source.
#[tactic(auto, unfolding(crate::specs::code::ReadItems::sourced, crate::specs::code::ReadItems::ended))]
fn sourced(
    alloc: Global,
    tokens: &mut Cursor<'_>,
    room: usize,
    source: Boxed<GTerm>,
) -> Result<Annotations, Stop>
    ensures { Reads (spec.sourced room source tokens.old) result tokens.new }
{
    match tokens.peek() {
        Some(Token::Mark(Mark::Comma)) => {
            tokens.skip();
            let found = info(alloc, tokens, room)?;
            ended(tokens)?;
            Ok((Some(source.into_inner()), Some(found)))
        }
        _ => {
            ended(tokens)?;
            Ok((Some(source.into_inner()), None))
        }
    }
}

// What follows the body.
#[tactic(auto, unfolding(crate::specs::code::ReadItems::annotations, crate::specs::code::ReadItems::ended))]
fn annotations(alloc: Global, tokens: &mut Cursor<'_>, room: usize) -> Result<Annotations, Stop>
    ensures { Reads (spec.annotations room tokens.old) result tokens.new }
{
    match tokens.peek() {
        Some(Token::Mark(Mark::Comma)) => {
            tokens.skip();
            let source = Boxed::new(alloc, general(alloc, tokens, room)?)?;
            sourced(alloc, tokens, room, source)
        }
        _ => {
            ended(tokens)?;
            Ok((None, None))
        }
    }
}

// An annotated formula from what follows its body on.
#[tactic(auto, unfolding(crate::specs::code::ReadItems::finished))]
fn finished(
    alloc: Global,
    tokens: &mut Cursor<'_>,
    room: usize,
    place: Place,
    lang: Lang,
    name: Boxed<Name>,
    role: Role,
    body: Boxed<Body>,
) -> Result<Item, Stop>
    ensures { Reads (spec.finished room place lang name role body tokens.old) result tokens.new }
{
    let (source, info) = annotations(alloc, tokens, room)?;
    let annotated = Annotated {
        place,
        lang,
        name: name.into_inner(),
        role,
        body: body.into_inner(),
        source,
        info,
    };
    Ok(Item::Formula(Boxed::new(alloc, annotated)?))
}

// An annotated formula from its body on.
#[tactic(auto, unfolding(crate::specs::code::ReadItems::bodied))]
fn bodied(
    alloc: Global,
    tokens: &mut Cursor<'_>,
    room: usize,
    place: Place,
    lang: Lang,
    name: Boxed<Name>,
    role: Role,
) -> Result<Item, Stop>
    ensures { Reads (spec.bodied room place lang name role tokens.old) result tokens.new }
{
    let body = Boxed::new(alloc, body(alloc, tokens, lang, role, room)?)?;
    finished(alloc, tokens, room, place, lang, name, role, body)
}

// An annotated formula from its role on.
#[tactic(auto, unfolding(crate::specs::code::ReadItems::with_role))]
fn with_role(
    alloc: Global,
    tokens: &mut Cursor<'_>,
    room: usize,
    place: Place,
    lang: Lang,
    name: Boxed<Name>,
) -> Result<Item, Stop>
    ensures { Reads (spec.with_role room place lang name tokens.old) result tokens.new }
{
    let role = role(tokens)?;
    tokens.expect(Mark::Comma)?;
    bodied(alloc, tokens, room, place, lang, name, role)
}

// An annotated formula from its name on.
#[tactic(auto, unfolding(crate::specs::code::ReadItems::named))]
fn named(
    alloc: Global,
    tokens: &mut Cursor<'_>,
    room: usize,
    place: Place,
    lang: Lang,
) -> Result<Item, Stop>
    ensures { Reads (spec.named room place lang tokens.old) result tokens.new }
{
    let name = Boxed::new(alloc, name(alloc, tokens)?)?;
    tokens.expect(Mark::Comma)?;
    with_role(alloc, tokens, room, place, lang, name)
}

// What follows the language.
#[tactic(auto, unfolding(crate::specs::code::ReadItems::annotated))]
fn annotated(
    alloc: Global,
    tokens: &mut Cursor<'_>,
    room: usize,
    place: Place,
    lang: Lang,
) -> Result<Item, Stop>
    ensures { Reads (spec.annotated room place lang tokens.old) result tokens.new }
{
    tokens.expect(Mark::Open)?;
    named(alloc, tokens, room, place, lang)
}

// The name of an included file.
#[tactic(auto, unfolding(crate::specs::code::ReadItems::file_name))]
fn file_name(alloc: Global, tokens: &mut Cursor<'_>) -> Result<Text, Stop>
    ensures { Reads (spec.file_name tokens.old) result tokens.new }
{
    match tokens.peek() {
        Some(Token::Quoted(name)) => {
            let name = name.to_text(alloc)?;
            tokens.skip();
            Ok(name)
        }
        _ => Err(Stop::Unexpected),
    }
}

// One or more names with commas between them.
fn names(alloc: Global, tokens: &mut Cursor<'_>) -> Result<List<Name>, Stop>
    ensures { Reads (separated (is_mark Mark.Comma) spec.name tokens.old) result tokens.new }
{
    let mut found = short_list(alloc);
    found.push(name(alloc, tokens)?)?;
    'members: while tokens.eat(Mark::Comma) {
        found.push(name(alloc, tokens)?)?;
    }
    Ok(found)
}

// The selected names in their brackets.
#[tactic(auto, unfolding(crate::specs::code::ReadItems::name_list))]
fn name_list(alloc: Global, tokens: &mut Cursor<'_>) -> Result<List<Name>, Stop>
    ensures { Reads (spec.name_list tokens.old) result tokens.new }
{
    tokens.expect(Mark::OpenList)?;
    let found = names(alloc, tokens)?;
    tokens.expect(Mark::CloseList)?;
    Ok(found)
}

// What follows the name of an included file.
#[tactic(auto, unfolding(crate::specs::code::ReadItems::selection, crate::specs::code::ReadItems::ended))]
fn selection(alloc: Global, tokens: &mut Cursor<'_>) -> Result<Option<List<Name>>, Stop>
    ensures { Reads (spec.selection tokens.old) result tokens.new }
{
    match tokens.peek() {
        Some(Token::Mark(Mark::Comma)) => {
            tokens.skip();
            let found = name_list(alloc, tokens)?;
            ended(tokens)?;
            Ok(Some(found))
        }
        _ => {
            ended(tokens)?;
            Ok(None)
        }
    }
}

#[tactic(auto, unfolding(crate::specs::code::ReadItems::from_file))]
fn from_file(alloc: Global, tokens: &mut Cursor<'_>, place: Place, file: Text) -> Result<Item, Stop>
    ensures { Reads (spec.from_file place file tokens.old) result tokens.new }
{
    let names = selection(alloc, tokens)?;
    Ok(Item::Include(Include { place, file, names }))
}

#[tactic(auto, unfolding(crate::specs::code::ReadItems::included))]
fn included(alloc: Global, tokens: &mut Cursor<'_>, place: Place) -> Result<Item, Stop>
    ensures { Reads (spec.included place tokens.old) result tokens.new }
{
    let file = file_name(alloc, tokens)?;
    from_file(alloc, tokens, place, file)
}

// What follows the word `include`.
#[tactic(auto, unfolding(crate::specs::code::ReadItems::include))]
fn include(alloc: Global, tokens: &mut Cursor<'_>, place: Place) -> Result<Item, Stop>
    ensures { Reads (spec.include place tokens.old) result tokens.new }
{
    tokens.expect(Mark::Open)?;
    included(alloc, tokens, place)
}

// An item that begins with no language.
fn other_item(
    alloc: Global,
    tokens: &mut Cursor<'_>,
    place: Place,
    word: &[u8],
) -> Result<Item, Stop>
    ensures { Reads (spec.other_item place word.now tokens.old) result tokens.new }
{
    if word == b"include".as_slice() {
        tokens.skip();
        include(alloc, tokens, place)
    } else {
        Err(Stop::Unexpected)
    }
}

// An item that begins with this word.
fn worded(
    alloc: Global,
    tokens: &mut Cursor<'_>,
    style: Style,
    room: usize,
    place: Place,
    word: &[u8],
) -> Result<Item, Stop>
    ensures { Reads (spec.worded room place word.now (spec.lang_of style word.now) tokens.old) result tokens.new }
{
    match lang_of(style, word) {
        Some(lang) => {
            tokens.skip();
            annotated(alloc, tokens, room, place, lang)
        }
        None => other_item(alloc, tokens, place, word),
    }
}

/// An item of a text of this style, whose first token stands at the place.
#[tactic(auto, unfolding(crate::specs::code::ReadItems::item))]
pub fn item(
    alloc: Global,
    tokens: &mut Cursor<'_>,
    style: Style,
    room: usize,
    place: Place,
) -> Result<Item, Stop>
    ensures { Reads (spec.item style room place tokens.old) result tokens.new }
{
    match tokens.peek() {
        Some(Token::Lower(word)) => {
            let word = word.as_slice();
            worded(alloc, tokens, style, room, place, word)
        }
        _ => Err(Stop::Unexpected),
    }
}
