// The productions of formulas, one function for each. `room` is the nesting that is left; bound variables may have
// sorts where the formula is `typed`.
ghost use Rattle.std.specs.Prelude.{◌≡◌, ◌≤◌, ◌-◌, ◌∷◌, length, IfOk, Some, None, if◌then◌else◌};
ghost use Rattle.first_fault.specs.code.Reading.{separated, closed, mapped, tail};
ghost use Rattle.tptp_base.specs.declared.surface.Surface.TheVariants as fm;
ghost use Rattle.tptp_grammar.specs.code.ReadTerms.{is_mark};
ghost use Rattle.tptp_grammar.specs.code.ReadFormulas as spec;
ghost use Rattle.tptp_grammar.specs.code.Outcomes.{Reads};

use crate::cursor::Cursor;
use crate::lists::{push_read, short_list};
use crate::sorts::argument_sort;
use crate::stop::Stop;
use crate::terms::basic;
use std::alloc::{AllocError, Global};
use tptp_base::{BinOp, BoundVar, Boxed, List, Quant, Surface, Text};
use tptp_lexer::{Mark, Token};

// What follows a bound variable.
#[tactic(auto, unfolding(crate::specs::code::ReadFormulas::sorted))]
fn sorted(alloc: Global, tokens: &mut Cursor<'_>, typed: bool, name: Text) -> Result<BoundVar, Stop>
    ensures { Reads (spec.sorted typed name tokens.old) result tokens.new }
{
    match tokens.peek() {
        Some(Token::Mark(Mark::Colon)) => {
            if typed {
                tokens.skip();
                let sort = argument_sort(alloc, tokens)?;
                Ok(BoundVar {
                    name,
                    sort: Some(sort),
                })
            } else {
                Ok(BoundVar { name, sort: None })
            }
        }
        _ => Ok(BoundVar { name, sort: None }),
    }
}

// A bound variable.
#[tactic(auto, unfolding(crate::specs::code::ReadFormulas::bound_variable))]
fn bound_variable(alloc: Global, tokens: &mut Cursor<'_>, typed: bool) -> Result<BoundVar, Stop>
    ensures { Reads (spec.bound_variable typed tokens.old) result tokens.new }
{
    match tokens.peek() {
        Some(Token::Upper(name)) => {
            let name = name.to_text(alloc)?;
            tokens.skip();
            sorted(alloc, tokens, typed, name)
        }
        _ => Err(Stop::Unexpected),
    }
}

// One or more bound variables with commas between them.
fn variable_list(
    alloc: Global,
    tokens: &mut Cursor<'_>,
    typed: bool,
) -> Result<List<BoundVar>, Stop>
    ensures { Reads (separated (is_mark Mark.Comma) (spec.bound_variable typed) tokens.old) result tokens.new }
{
    let mut found = short_list(alloc);
    found.push(bound_variable(alloc, tokens, typed)?)?;
    'members: while tokens.eat(Mark::Comma) {
        found.push(bound_variable(alloc, tokens, typed)?)?;
    }
    Ok(found)
}

// The bound variables from their bracket on.
#[tactic(auto, unfolding(crate::specs::code::ReadFormulas::bound_variables))]
fn bound_variables(
    alloc: Global,
    tokens: &mut Cursor<'_>,
    typed: bool,
    room: usize,
) -> Result<List<BoundVar>, Stop>
    ensures { Reads (spec.bound_variables typed room tokens.old) result tokens.new }
{
    if room == 0 {
        return Err(Stop::TooDeep);
    }
    tokens.skip();
    let found = variable_list(alloc, tokens, typed)?;
    tokens.expect(Mark::CloseList)?;
    Ok(found)
}

/// The bound variables.
#[tactic(auto, unfolding(crate::specs::code::ReadFormulas::bracket))]
pub fn bracket(
    alloc: Global,
    tokens: &mut Cursor<'_>,
    typed: bool,
    room: usize,
) -> Result<List<BoundVar>, Stop>
    ensures { Reads (spec.bracket typed room tokens.old) result tokens.new }
{
    match tokens.peek() {
        Some(Token::Mark(Mark::OpenList)) => bound_variables(alloc, tokens, typed, room),
        _ => Err(Stop::Unexpected),
    }
}

// A unit behind the next token, nested deeper by `levels`.
#[cycle(formula)]
fn nested(
    alloc: Global,
    tokens: &mut Cursor<'_>,
    typed: bool,
    room: usize,
    levels: usize,
) -> Result<Surface, Stop>
    requires { 1 ≤ levels }
    ensures { Reads (spec.deeper typed room (levels - 1) tokens.old (tail tokens.old)) result tokens.new }
{
    if room < levels {
        return Err(Stop::TooDeep);
    }
    tokens.skip();
    unit(alloc, tokens, typed, room - levels)
}

// A formula in parentheses.
#[cycle(formula)]
fn parenthesis(
    alloc: Global,
    tokens: &mut Cursor<'_>,
    typed: bool,
    room: usize,
) -> Result<Surface, Stop>
    ensures { Reads (spec.parenthesis (spec.deeper typed room) tokens.old) result tokens.new }
{
    if room == 0 {
        return Err(Stop::TooDeep);
    }
    tokens.skip();
    inner(alloc, tokens, typed, room - 1)
}

// A formula up to its closing parenthesis.
#[cycle(formula)]
fn inner(alloc: Global, tokens: &mut Cursor<'_>, typed: bool, room: usize) -> Result<Surface, Stop>
    ensures { Reads (closed (is_mark Mark.Close) (spec.formula typed room) tokens.old) result tokens.new }
{
    let found = formula(alloc, tokens, typed, room);
    tokens.closed(found, Mark::Close)
}

// A formula behind its bound variables.
fn bound(
    alloc: Global,
    quant: Quant,
    names: List<BoundVar>,
    body: Surface,
) -> Result<Surface, AllocError>
    ensures { IfOk result (λ whole. whole ≡ fm.Bind quant names body) }
{
    Ok(Surface::Bind(quant, names, Boxed::new(alloc, body)?))
}

// What follows the bound variables.
#[cycle(formula)]
#[tactic(auto, unfolding(crate::specs::code::ReadFormulas::scope))]
fn scope(
    alloc: Global,
    tokens: &mut Cursor<'_>,
    typed: bool,
    room: usize,
    quant: Quant,
    names: List<BoundVar>,
) -> Result<Surface, Stop>
    requires { 1 ≤ length names }
    ensures { Reads (spec.scope (spec.deeper typed room) quant names tokens.old) result tokens.new }
{
    match tokens.peek() {
        Some(Token::Mark(Mark::Colon)) => {
            let body = nested(alloc, tokens, typed, room, names.len())?;
            Ok(bound(alloc, quant, names, body)?)
        }
        _ => Err(Stop::Unexpected),
    }
}

// Bound variables and their scope.
#[cycle(formula)]
#[tactic(auto, unfolding(crate::specs::code::ReadFormulas::quantified))]
fn quantified(
    alloc: Global,
    tokens: &mut Cursor<'_>,
    typed: bool,
    room: usize,
    quant: Quant,
) -> Result<Surface, Stop>
    ensures { Reads (spec.quantified typed room (spec.deeper typed room) quant tokens.old) result tokens.new }
{
    let names = bracket(alloc, tokens, typed, room)?;
    scope(alloc, tokens, typed, room, quant, names)
}

// A negation.
#[cycle(formula)]
fn negation(
    alloc: Global,
    tokens: &mut Cursor<'_>,
    typed: bool,
    room: usize,
) -> Result<Surface, Stop>
    ensures { Reads (mapped fm.Not (spec.deeper typed room 0 tokens.old (tail tokens.old))) result tokens.new }
{
    let body = nested(alloc, tokens, typed, room, 1)?;
    Ok(Surface::Not(Boxed::new(alloc, body)?))
}

// A formula that needs no parentheses as a part of another.
#[cycle(formula)]
#[tactic(auto, unfolding(crate::specs::code::ReadFormulas::unit, crate::specs::code::ReadFormulas::unit_by))]
fn unit(alloc: Global, tokens: &mut Cursor<'_>, typed: bool, room: usize) -> Result<Surface, Stop>
    ensures { Reads (spec.unit typed room tokens.old) result tokens.new }
{
    match tokens.peek() {
        Some(Token::Mark(Mark::Tilde)) => negation(alloc, tokens, typed, room),
        Some(Token::Mark(Mark::Open)) => parenthesis(alloc, tokens, typed, room),
        Some(Token::Mark(Mark::Bang)) => {
            tokens.skip();
            quantified(alloc, tokens, typed, room, Quant::All)
        }
        Some(Token::Mark(Mark::Question)) => {
            tokens.skip();
            quantified(alloc, tokens, typed, room, Quant::Ex)
        }
        _ => basic(alloc, tokens, room),
    }
}

// The first unit and the further ones, with the mark before each of them. The cursor stands at the first mark.
#[cycle(formula)]
fn units(
    alloc: Global,
    tokens: &mut Cursor<'_>,
    typed: bool,
    room: usize,
    mark: Mark,
    first: Surface,
) -> Result<List<Surface>, Stop>
    ensures { Reads (mapped (λ fs. first
        ∷ fs) (separated (is_mark mark) (spec.unit typed room) (tail tokens.old))) result tokens.new }
{
    tokens.skip();
    let mut found = short_list(alloc);
    found.push(first)?;
    push_read(&mut found, unit(alloc, tokens, typed, room))?;
    'members: while tokens.eat(mark) {
        push_read(&mut found, unit(alloc, tokens, typed, room))?;
    }
    Ok(found)
}

// Two formulas with the operator between them.
fn binary(
    alloc: Global,
    operator: BinOp,
    first: Boxed<Surface>,
    second: Surface,
) -> Result<Surface, AllocError>
    ensures { IfOk result (λ whole. whole ≡ fm.Binary operator first second) }
{
    Ok(Surface::Binary(operator, first, Boxed::new(alloc, second)?))
}

// The second unit of a formula with this operator.
#[cycle(formula)]
fn operated(
    alloc: Global,
    tokens: &mut Cursor<'_>,
    typed: bool,
    room: usize,
    operator: BinOp,
    first: Surface,
) -> Result<Surface, Stop>
    ensures { Reads (mapped (fm.Binary operator first) (spec.unit typed room (tail tokens.old))) result tokens.new }
{
    let first = Boxed::new(alloc, first)?;
    tokens.skip();
    let second = unit(alloc, tokens, typed, room)?;
    Ok(binary(alloc, operator, first, second)?)
}

// The further units of a formula with bars.
#[cycle(formula)]
fn disjunction(
    alloc: Global,
    tokens: &mut Cursor<'_>,
    typed: bool,
    room: usize,
    first: Surface,
) -> Result<Surface, Stop>
    ensures { Reads (mapped (λ fs. fm.Or (first
        ∷ fs)) (separated (is_mark Mark.Bar) (spec.unit typed room) (tail tokens.old))) result tokens.new }
{
    let all = units(alloc, tokens, typed, room, Mark::Bar, first)?;
    Ok(Surface::Or(all))
}

// The further units of a formula with ampersands.
#[cycle(formula)]
fn conjunction(
    alloc: Global,
    tokens: &mut Cursor<'_>,
    typed: bool,
    room: usize,
    first: Surface,
) -> Result<Surface, Stop>
    ensures { Reads (mapped (λ fs. fm.And (first
        ∷ fs)) (separated (is_mark Mark.Ampersand) (spec.unit typed room) (tail tokens.old))) result tokens.new }
{
    let all = units(alloc, tokens, typed, room, Mark::Ampersand, first)?;
    Ok(Surface::And(all))
}

// What follows the first unit of a formula.
#[cycle(formula)]
#[tactic(auto, unfolding(crate::specs::code::ReadFormulas::joined))]
fn joined(
    alloc: Global,
    tokens: &mut Cursor<'_>,
    typed: bool,
    room: usize,
    first: Surface,
) -> Result<Surface, Stop>
    ensures { Reads (spec.joined (spec.unit typed room) first tokens.old) result tokens.new }
{
    match tokens.peek() {
        Some(Token::Mark(Mark::Imp)) => operated(alloc, tokens, typed, room, BinOp::Imp, first),
        Some(Token::Mark(Mark::RevImp)) => {
            operated(alloc, tokens, typed, room, BinOp::RevImp, first)
        }
        Some(Token::Mark(Mark::Iff)) => operated(alloc, tokens, typed, room, BinOp::Iff, first),
        Some(Token::Mark(Mark::Xor)) => operated(alloc, tokens, typed, room, BinOp::Xor, first),
        Some(Token::Mark(Mark::Nor)) => operated(alloc, tokens, typed, room, BinOp::Nor, first),
        Some(Token::Mark(Mark::Nand)) => operated(alloc, tokens, typed, room, BinOp::Nand, first),
        Some(Token::Mark(Mark::Bar)) => disjunction(alloc, tokens, typed, room, first),
        Some(Token::Mark(Mark::Ampersand)) => conjunction(alloc, tokens, typed, room, first),
        _ => Ok(first),
    }
}

/// A formula.
#[cycle(formula)]
#[tactic(auto, unfolding(crate::specs::code::ReadFormulas::formula, crate::specs::code::ReadFormulas::formula_by))]
pub fn formula(
    alloc: Global,
    tokens: &mut Cursor<'_>,
    typed: bool,
    room: usize,
) -> Result<Surface, Stop>
    ensures { Reads (spec.formula typed room tokens.old) result tokens.new }
{
    let first = unit(alloc, tokens, typed, room)?;
    joined(alloc, tokens, typed, room, first)
}
