use clause_form::Clause;
use fof_terms::Signature;

/// What is asked: whether the member subsumes the clause.
#[derive(Clone, Copy)]
pub struct Task<'a> {
    pub signature: &'a Signature,
    pub member: &'a Clause,
    pub clause: &'a Clause,
}
