// The keys of a term, and when those of two terms clash.
ghost use Rattle.std.specs.Prelude.{◌≡◌, [], ◌∷◌, Some};
ghost use Rattle.std.specs.Option.{option_copied};
ghost use Rattle.clause_index.specs.Keys as spec;

use fof_terms::{SymId, Term};

/// What stands at a place of a term.
#[derive(Clone, Copy, PartialEq, Eq)]
pub enum Key {
    /// An application of this symbol.
    Head(SymId),
    /// A variable, or no term.
    Open,
}

/// The keys of a term at its six sample places.
#[derive(Clone, Copy)]
pub struct Keys {
    /// At the term itself.
    pub whole: Key,
    /// At its argument 0.
    pub first: Key,
    /// At its argument 1.
    pub second: Key,
    /// At argument 0 of its argument 0.
    pub first_of_first: Key,
    /// At argument 1 of its argument 0.
    pub second_of_first: Key,
    /// At argument 0 of its argument 1.
    pub first_of_second: Key,
}

/// The keys of the term.
pub fn keys_of(term: &Term) -> Keys
    ensures { result ≡ spec.keys_of term.now }
{
    Keys {
        whole: key_of(term),
        first: key_below(term, 0),
        second: key_below(term, 1),
        first_of_first: key_deeper(term, 0, 0),
        second_of_first: key_deeper(term, 0, 1),
        first_of_second: key_deeper(term, 1, 0),
    }
}

/// Whether the keys of two terms clash at a place.
pub fn do_clash(one: &Keys, other: &Keys) -> bool
    ensures { result ≡ spec.do_clash one.now other.now }
{
    clashes(one.whole, other.whole)
        || clashes(one.first, other.first)
        || clashes(one.second, other.second)
        || clashes(one.first_of_first, other.first_of_first)
        || clashes(one.second_of_first, other.second_of_first)
        || clashes(one.first_of_second, other.first_of_second)
}

// What stands at the term itself.
fn key_of(term: &Term) -> Key
    ensures { result ≡ spec.key_of (Some term.now) }
{
    match term {
        Term::Var(_) => Key::Open,
        Term::App(symbol, _) => Key::Head(*symbol),
    }
}

// The argument of that number; None where there is none.
fn argument(term: &Term, number: usize) -> Option<&Term>
    ensures { option_copied result ≡ spec.subterm_at (number ∷ []) (Some term.now) }
{
    match term {
        Term::Var(_) => None,
        Term::App(_, args) => args.get(number),
    }
}

// What stands at an argument.
fn key_below(term: &Term, number: usize) -> Key
    ensures { result ≡ spec.key_at (number ∷ []) term.now }
{
    match argument(term, number) {
        Some(there) => key_of(there),
        None => Key::Open,
    }
}

// What stands at an argument of an argument.
fn key_deeper(term: &Term, number: usize, inner: usize) -> Key
    ensures { result ≡ spec.key_at (number ∷ inner ∷ []) term.now }
{
    match argument(term, number) {
        Some(there) => key_below(there, inner),
        None => Key::Open,
    }
}

// Whether both are heads, of different symbols.
fn clashes(one: Key, other: Key) -> bool
    ensures { result ≡ spec.clash one other }
{
    match (one, other) {
        (Key::Head(symbol), Key::Head(another)) => symbol != another,
        _ => false,
    }
}
