// The sentences of a model: what its formulas say. They lend words and arguments from the formulas.
use crate::arguments::Arguments;
use tptp_base::{List, Name, Place};
use tptp_lexer::Word;

/// An element of a domain: a distinct object, by its text.
#[derive(Drop)]
pub struct Element<'a> {
    pub name: Word<'a>,
}

/// The domain of a sort: its elements in order.
#[derive(Drop)]
pub struct Domain<'a> {
    /// The name of the sort; None for `$i`.
    pub sort: Option<Word<'a>>,
    pub elements: List<Element<'a>>,
}

/// What a symbol gives.
#[derive(Drop)]
pub enum Value<'a> {
    /// A function gives an element.
    Element(Element<'a>),
    /// A predicate holds or not.
    Truth(bool),
}

/// The value of a symbol at elements.
#[derive(Drop)]
pub struct Entry<'a> {
    /// The name of the symbol.
    pub name: Word<'a>,
    pub args: Arguments<'a>,
    pub value: Value<'a>,
}

/// What a sentence says.
#[derive(Drop)]
pub enum What<'a> {
    Domain(Domain<'a>),
    Entries(List<Entry<'a>>),
}

/// A formula of a model's text.
#[derive(Drop)]
pub struct Sentence<'a> {
    /// The place of its first token.
    pub place: Place,
    pub name: Name,
    pub what: What<'a>,
}
