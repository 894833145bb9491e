// Plans.
use fof_terms::SymId;
use given_parts::{FunctionNumbers, Part};
use tptp_base::List;

/// What the lines of a derivation are made from.
#[derive(Drop)]
pub struct Plan {
    /// The given formulas as the search took them apart.
    pub parts: List<Part>,
    /// For each input the number of its part.
    pub owners: List<usize>,
    /// Which members the refutation needs.
    pub needed: List<bool>,
    /// Which inputs are printed.
    pub printed: List<bool>,
    /// Which parts are used.
    pub used: List<bool>,
    /// How many inputs are printed before each one, and in all.
    pub ranks: List<usize>,
    /// For each member its place among the clauses of the derivation.
    pub places: List<usize>,
    /// The number of the first new function.
    pub first: SymId,
    /// The numbers of the functions of the derivation.
    pub numbers: FunctionNumbers,
}
