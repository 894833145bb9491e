use crate::{Chars, Style, TokenList, Word};
use tptp_base::Place;

/// The marks.
#[derive(Clone, Copy, PartialEq, Eq)]
pub enum Mark {
    /// `(`
    Open,
    /// `)`
    Close,
    /// `[`
    OpenList,
    /// `]`
    CloseList,
    /// `,`
    Comma,
    /// `.`
    Dot,
    /// `:`
    Colon,
    /// `!`
    Bang,
    /// `?`
    Question,
    /// `~`
    Tilde,
    /// `&`
    Ampersand,
    /// `=`
    Equal,
    /// `!=`
    NotEqual,
    /// `*`
    Star,
    /// `>`
    Greater,
    /// `=>`
    Imp,
    /// `<=`
    RevImp,
    /// `<=>`
    Iff,
    /// `<~>`
    Xor,
    /// `~&`
    Nand,
    /// `|`
    Bar,
    /// `~|`
    Nor,
}

/// A token. Comments are tokens too, blanks are not.
#[derive(Drop)]
pub enum Token<'a> {
    /// A word that begins with a small letter.
    Lower(Word<'a>),
    /// What stands between single quotes, without escapes.
    Quoted(Chars<'a>),
    /// A word that begins with a capital letter.
    Upper(Word<'a>),
    /// A word that begins with `$`, that byte included.
    Dollar(Word<'a>),
    /// A word that begins with `$$`, those bytes included.
    System(Word<'a>),
    /// A number, as it was written.
    Number(Word<'a>),
    /// What stands between double quotes, without escapes.
    Distinct(Chars<'a>),
    /// A comment, its first bytes included: of a line all before the line feed, of a block through `*/`.
    Comment(Word<'a>),
    Mark(Mark),
}

/// The tokens of a part of a text.
#[derive(Drop)]
pub struct Tokens<'a> {
    /// The tokens in turn, each with the place where it begins.
    pub items: TokenList<'a>,
    /// The place of the part's end.
    pub end: Place,
    /// How the text was read.
    pub style: Style,
}
