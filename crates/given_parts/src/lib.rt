//! Given formulas as a derivation speaks of them: their normal forms, which of them a clause is of, and the functions
//! in place of existential variables, with their names and numbers.
#![tactic(auto)]

mod functions;
mod numbers;
mod owners;
mod part;

pub use functions::functions_of;
pub use numbers::{FunctionNumbers, numbers_of};
pub use owners::owners_of;
pub use part::{Part, parts_of};
