//! Proofs that are built of proofs: each builder says what its proof shows, in every theory and context where its parts
//! show theirs. Entries that derive a line from what it cites.
#![tactic(auto)]

mod builders;
mod nodes;

pub use builders::{cases, cut_under, instance_of, rewrite_in};
pub use nodes::{
    Part, all_e, all_i, and_e, and_i, ex_e, ex_i, hyp, iff_i, iff_l, iff_r, imp_e, imp_i, inhabit,
    not_e, not_i, or_e, or_i, raa, subst,
};
