//! The pieces that a clause is written in.
ghost use Rattle.std.specs.Prelude.{◌≡◌, Some, MatchOption};
ghost use Rattle.packed_clauses.specs.Reading.{kind_at};
ghost use Rattle.packed_clauses.specs.code.Spelling.{code};

/// What a piece is. Each comes with a number.
#[derive(Clone, Copy)]
pub enum Kind {
    /// The sort of a variable of the clause.
    Sort,
    /// A variable.
    Variable,
    /// The beginning of a term with this symbol.
    Open,
    /// The end of the last term that has begun.
    Close,
    /// A literal with this predicate, of the terms before it.
    Predicate(bool),
    /// An equation of the two terms before it.
    Equation(bool),
    /// Truth.
    Truth(bool),
    /// Falsehood.
    Falsehood(bool),
}

/// The kind as a byte.
pub fn code_of(kind: Kind) -> u8
    ensures { result ≡ code kind }
{
    match kind {
        Kind::Sort => 0,
        Kind::Variable => 1,
        Kind::Open => 2,
        Kind::Close => 3,
        Kind::Predicate(positive) => if positive { 4 } else { 5 },
        Kind::Equation(positive) => if positive { 6 } else { 7 },
        Kind::Truth(positive) => if positive { 8 } else { 9 },
        Kind::Falsehood(positive) => if positive { 10 } else { 11 },
    }
}

/// The kind that is written as this byte.
pub fn kind_of(byte: u8) -> Option<Kind>
    ensures { MatchOption result (Unit {0}) (λ kind. kind_at byte ≡ Some kind) }
{
    match byte {
        0 => Some(Kind::Sort),
        1 => Some(Kind::Variable),
        2 => Some(Kind::Open),
        3 => Some(Kind::Close),
        4 => Some(Kind::Predicate(true)),
        5 => Some(Kind::Predicate(false)),
        6 => Some(Kind::Equation(true)),
        7 => Some(Kind::Equation(false)),
        8 => Some(Kind::Truth(true)),
        9 => Some(Kind::Truth(false)),
        10 => Some(Kind::Falsehood(true)),
        11 => Some(Kind::Falsehood(false)),
        _ => None,
    }
}
