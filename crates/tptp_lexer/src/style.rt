/// How a text is read.
#[derive(Clone, Copy, PartialEq, Eq)]
pub enum Style {
    /// A problem: a line comment begins with `%`.
    Problem,
    /// A derivation: a line comment begins with `%` or `#`.
    Derivation,
}
