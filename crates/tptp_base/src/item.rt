// The items of a file.
use crate::{Boxed, List, Name, Place, STerm, SortName, Surface, Text};

/// The languages of annotated formulas.
#[derive(Clone, Copy, PartialEq, Eq)]
pub enum Lang {
    Cnf,
    Fof,
    Tff,
    /// Typed clauses, which stand in derivations alone.
    Tcf,
}

/// The roles of formulas.
#[derive(Clone, Copy, PartialEq, Eq)]
pub enum Role {
    Axiom,
    Hypothesis,
    Definition,
    Assumption,
    Lemma,
    Theorem,
    Corollary,
    Conjecture,
    NegatedConjecture,
    Plain,
    /// `type`.
    Typing,
    FiDomain,
    FiFunctors,
    FiPredicates,
    Unknown,
}

/// What a type line declares of its name.
#[derive(Drop)]
pub enum Shape {
    /// A sort, by `$tType`.
    Sort,
    /// A symbol, with the sorts of its arguments and its result.
    Symbol(List<SortName>, SortName),
}

/// A type line's body.
#[derive(Drop)]
pub struct Typing {
    pub name: Text,
    pub shape: Shape,
}

/// An annotated formula's body.
#[derive(Drop)]
pub enum Body {
    Logic(Surface),
    Typing(Typing),
}

/// A general term, as sources and useful information are written in.
#[derive(Drop)]
pub enum GTerm {
    Word(Text),
    Func(Text, List<GTerm>),
    Var(Text),
    /// A number, as it was written.
    Number(Text),
    /// A distinct object, without its quotes and escapes.
    Distinct(Text),
    /// `$cnf(..)`, `$fof(..)` or `$tff(..)`.
    Formula(Lang, Boxed<Surface>),
    /// `$fot(..)`.
    Term(STerm),
    List(List<GTerm>),
    /// `a:b`.
    Pair(Boxed<GTerm>, Boxed<GTerm>),
}

/// An annotated formula.
#[derive(Drop)]
pub struct Annotated {
    /// The place of its first token.
    pub place: Place,
    pub lang: Lang,
    pub name: Name,
    pub role: Role,
    pub body: Body,
    pub source: Option<GTerm>,
    pub info: Option<List<GTerm>>,
}

/// An include, with the names that it selects where it selects any.
#[derive(Drop)]
pub struct Include {
    /// The place of its first token.
    pub place: Place,
    pub file: Text,
    pub names: Option<List<Name>>,
}

/// What stands in a file.
#[derive(Drop)]
pub enum Item {
    /// A comment between formulas, without the line feed that ends it.
    Comment(Text),
    Formula(Boxed<Annotated>),
    Include(Include),
}
