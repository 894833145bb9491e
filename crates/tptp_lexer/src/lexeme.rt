use crate::scan::Kind;

/// A token as the scanner finds it: of what kind it is, and where it is spelled.
#[derive(Clone, Copy)]
pub struct Lexeme {
    pub kind: Kind,
    /// The bytes of its spelling.
    pub len: usize,
    /// The bytes of the text before it.
    pub at: u64,
}
