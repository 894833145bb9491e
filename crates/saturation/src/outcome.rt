use crate::member::Member;
use tptp_base::List;

/// How a search ends, with its members in order.
#[derive(Drop)]
pub enum Outcome {
    /// The further member is the empty clause.
    Refuted(List<Member>, Member),
    /// Each input and each inference of the members is trivial or covered by one.
    Dry(List<Member>),
    /// There are as many members as the limit, and more to come.
    Full(List<Member>),
    /// What is left to come is too heavy.
    Heavy(List<Member>),
}
