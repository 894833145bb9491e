use crate::pair::Pair;
use tptp_base::List;

/// What a substitution is to meet: all of some goals, one of them, or the equality of pairs.
#[derive(Drop)]
pub enum Goal {
    All(List<Goal>),
    Any(List<Goal>),
    Same(List<Pair>),
}
