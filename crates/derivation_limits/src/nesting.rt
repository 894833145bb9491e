// How deeply formulas nest.
ghost use Rattle.std.specs.Prelude.{◌≡◌, ◌↔◌, ◌<◌, ◌≤◌, ◌-◌, IsTrue, if◌then◌else◌, length};
ghost use Rattle.std.specs.Prelude.{map, min};
ghost use Rattle.fof_terms.specs.Lift.{greatest};
ghost use Rattle.derivation_limits.specs.Nesting.{applied_nesting, nested, nesting_of, term_nesting};
ghost use Rattle.derivation_limits.specs.code.Units.{unit_nesting};

use tptp_base::{STerm, Surface};

/// How deeply a formula of a text may nest.
pub const MAX_NESTING: usize = 250;

/// Whether the formula nests no deeper than a text may, where it is spelled as canonical texts spell it.
pub fn nests_within(formula: &Surface) -> bool
    ensures { IsTrue result ↔ (nesting_of formula.now ≤ 250) }
{
    nests_below(formula, MAX_NESTING + 1)
}

#[cycle(nests_below)]
#[tactic(auto, using(crate::proofs::NestingFacts::nesting_equations))]
fn nests_below(formula: &Surface, room: usize) -> bool
    ensures { IsTrue result ↔ (nesting_of formula.now < room) }
{
    match formula {
        Surface::True | Surface::False => room > 0,
        Surface::Atom(_, args) => args_below(args.as_slice(), room),
        Surface::Eq(left, right) | Surface::Neq(left, right) => {
            term_below(left, room) && term_below(right, room)
        }
        Surface::Not(body) => {
            let inside = room_in(body.get(), room.saturating_sub(1));
            nests_below(body.get(), inside)
        }
        Surface::And(parts) | Surface::Or(parts) => units_below(parts.as_slice(), room),
        Surface::Binary(_, left, right) => {
            nests_below(left.get(), room_in(left.get(), room))
                && nests_below(right.get(), room_in(right.get(), room))
        }
        Surface::Bind(_, variables, body) => {
            let inside = room_in(body.get(), room.saturating_sub(variables.len()));
            room > 1 && nests_below(body.get(), inside)
        }
    }
}

// The same of formulas that stand as units.
#[cycle(nests_below)]
#[tactic(auto, using(crate::proofs::NestingFacts::nesting_equations))]
fn units_below(formulas: &[Surface], room: usize) -> bool
    ensures { IsTrue result ↔ (greatest (map unit_nesting formulas.now) < room) }
{
    if room == 0 {
        return false;
    }
    for formula in formulas {
        if !nests_below(formula, room_in(formula, room)) {
            return false;
        }
    }
    true
}

// The room within the parentheses of a formula that stands as a unit, where it needs them.
#[tactic(auto, using(crate::proofs::NestingFacts::nesting_equations))]
fn room_in(formula: &Surface, room: usize) -> usize
    ensures { result ≡ room - (if (nested formula.now).grouped then 1 else 0) }
{
    match formula {
        Surface::And(_) | Surface::Or(_) | Surface::Binary(_, _, _) => room.saturating_sub(1),
        Surface::True | Surface::False | Surface::Atom(_, _) => room,
        Surface::Eq(_, _) | Surface::Neq(_, _) | Surface::Not(_) | Surface::Bind(_, _, _) => room,
    }
}

#[cycle(term_below)]
#[tactic(auto, using(crate::proofs::NestingFacts::term_nesting_equations))]
fn term_below(term: &STerm, room: usize) -> bool
    ensures { IsTrue result ↔ (term_nesting term.now < room) }
{
    match term {
        STerm::Var(_) => room > 0,
        STerm::App(_, args) => args_below(args.as_slice(), room),
    }
}

// The room within the parentheses behind a word, where these arguments need them.
fn room_of(args: &[STerm], room: usize) -> usize
    ensures { result ≡ room - min 1 (length args.now) }
{
    if args.is_empty() {
        room
    } else {
        room.saturating_sub(1)
    }
}

// The same of what stands in the parentheses behind a word, where there is something.
#[cycle(term_below)]
#[tactic(auto, using(crate::proofs::NestingFacts::term_nesting_equations))]
fn args_below(args: &[STerm], room: usize) -> bool
    ensures { IsTrue result ↔ (applied_nesting (map term_nesting args.now) < room) }
{
    let inside = room_of(args, room);
    if inside == 0 {
        return false;
    }
    for term in args {
        if !term_below(term, inside) {
            return false;
        }
    }
    true
}
