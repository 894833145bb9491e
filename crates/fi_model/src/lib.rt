//! Finite models: the text of one is read, and formulas are evaluated in it.
#![tactic(auto)]

mod arguments;
mod bounds;
mod distinct;
mod domains;
mod elements;
mod fault;
mod formulas;
mod index;
mod laws;
mod looked;
mod model;
mod rows;
mod sentence;
mod sentences;
mod table;
mod tables;
mod terms;
mod truth;

pub use arguments::Arguments;
pub use distinct::as_words;
pub use elements::Elements;
pub use fault::ModelFault;
pub use laws::one_model_or_fault;
pub use model::{FiniteModel, read_model};
pub use sentence::{Domain, Element, Entry, Sentence, Value, What};
pub use table::Table;
pub use truth::holds;
