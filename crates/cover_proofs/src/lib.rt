//! Proofs of lines by what shows that a rule gives them, and of the two rules that go by flat and normal forms: a line's
//! flat form is that of a parent, or the line covers a clause of a parent's normal form.
#![tactic(auto)]

mod cover;
mod members;
mod norm;
mod proving;

pub use cover::covered;
pub use norm::normed;
pub use proving::prove;
