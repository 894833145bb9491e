use clause_form::Clause;
use fof_terms::Signature;
use std::alloc::Global;

/// What a search for a justification goes by: the clauses that the parents are, and the line.
#[derive(Clone, Copy)]
pub struct Search<'a> {
    pub alloc: Global,
    pub sig: &'a Signature,
    pub clauses: &'a [Option<Clause>],
    pub line: &'a Clause,
}
