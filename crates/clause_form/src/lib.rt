//! Clauses and normal forms: the clause that a formula is, what it takes for one clause to cover another, the normal
//! form of a formula with its sizes, and the paths through a normal form.
#![tactic(auto)]

mod beside;
mod clause;
mod closing;
mod fault;
mod joining;
mod laws;
mod normal;
mod path;
mod reaching;
mod sameness;
mod sizes;
mod stripping;
mod view;

pub use beside::all_beside;
pub use clause::{AtomOf, Clause, Lit, copy_clauses, copy_lits};
pub use closing::{close, form_of_atom, form_of_lit, forms_of_lits};
pub use fault::FormFault;
pub use joining::{is_end, join_flat, node, own_members, push_members, quantified, signed};
pub use laws::{
    clauses_are_counted, clauses_by_paths, cover_of_instance, empty_instance, image_of_image,
    instance_of_trivial, norm_no_larger, view_of_closed,
};
pub use normal::{MAX_NORM_SIZE, norm, norm_signed};
pub use path::{Parent, Path};
pub use reaching::{clause_of_path, clauses_of_paths};
pub use sameness::{are_complementary, denies, is_trivial, same_atoms};
pub use sizes::{clause_count, norm_size};
pub use stripping::strip;
pub use view::{as_clause, as_lit};
