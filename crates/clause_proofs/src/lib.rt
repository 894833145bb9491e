//! Parts of proofs with clauses: a formula opened to its clause, instances of it, falsehood by an instance that the
//! line covers or contradicts, and the way from there to the line.
#![tactic(auto)]

mod closing;
mod covering;
mod nodes;
mod opening;
mod premises;
mod reach;
mod refuting;
mod turning;

pub use closing::{for_all, inhabited};
pub use covering::{body_form, contrary, form_of_body, injected};
pub use nodes::{line, number, refl, truth};
pub use opening::{Opened, known_clause, open_clause};
pub use premises::{
    Premise, images_of, images_of_lits, instance_by, instance_of_part, some_images,
};
pub use reach::{Reach, closed, few_variables_of, variables_of};
pub use refuting::{by_pivot, denial, negated, refute_covered, refuted};
pub use turning::{known_sort, turned};
