// Terms and formulas as a text spells them.
use crate::{Boxed, List, Text};

/// A term: a variable, or a word with its arguments.
#[derive(Drop)]
pub enum STerm {
    Var(Text),
    App(Text, List<STerm>),
}

/// The name of a sort.
#[derive(Drop)]
pub enum SortName {
    /// `$i`.
    Individual,
    /// `$o`.
    Truth,
    Word(Text),
}

/// A variable as a quantifier binds it, with its sort where one is written.
#[derive(Drop)]
pub struct BoundVar {
    pub name: Text,
    pub sort: Option<SortName>,
}

/// The connectives that stand between two formulas and do not associate.
#[derive(Clone, Copy, PartialEq, Eq)]
pub enum BinOp {
    /// `=>`.
    Imp,
    /// `<=`.
    RevImp,
    /// `<=>`.
    Iff,
    /// `<~>`.
    Xor,
    /// `~|`.
    Nor,
    /// `~&`.
    Nand,
}

/// The quantifiers.
#[derive(Clone, Copy, PartialEq, Eq)]
pub enum Quant {
    /// `!`.
    All,
    /// `?`.
    Ex,
}

/// A formula as it is written. It keeps no parentheses: they show in how formulas stand in each other.
#[derive(Drop)]
pub enum Surface {
    True,
    False,
    Atom(Text, List<STerm>),
    Eq(STerm, STerm),
    Neq(STerm, STerm),
    Not(Boxed<Surface>),
    And(List<Surface>),
    Or(List<Surface>),
    Binary(BinOp, Boxed<Surface>, Boxed<Surface>),
    Bind(Quant, List<BoundVar>, Boxed<Surface>),
}
