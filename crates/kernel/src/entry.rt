use crate::proof::Proof;
use fof_terms::{Form, SymId, Symbol};
use tptp_base::Text;

/// A new sort or symbol.
#[derive(Drop)]
pub enum Decl {
    /// A sort of this name.
    Sort(Text),
    /// A function or a predicate.
    Symbol(Symbol),
}

/// What a theory can be given next.
#[derive(Drop)]
pub enum Entry {
    /// The next sort or symbol.
    Declare(Decl),
    /// What the proof concludes from the theory alone.
    Lemma(Proof),
    /// That the predicate holds exactly where the formula does, for all arguments. The formula speaks of the
    /// predicate's arguments, the last of which is variable 0.
    Name(SymId, Form),
    /// That the function gives one for which the formula holds, wherever there is one. The formula speaks of the
    /// function's arguments and, as variable 0, of the one that there is.
    Choice(SymId, Form),
}
