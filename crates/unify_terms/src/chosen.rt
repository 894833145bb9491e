use crate::pair::Pair;

/// Pairs that were chosen one list after another.
#[derive(Clone, Copy)]
pub enum Chosen<'a> {
    /// No pair.
    Nothing,
    /// The earlier ones, and then these.
    Then(&'a Chosen<'a>, &'a [Pair]),
}
