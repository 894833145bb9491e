//! The words of the command line, the commands `parse`, `format`, `check` and `model`, and what `verify` and `make`
//! read and say beside a check of lines.
#![tactic(auto)]

mod checked;
mod derived;
mod formatted;
mod made;
mod model_text;
mod modelled;
mod named_log;
mod parsed;
mod presented;
mod words;

pub use checked::check;
pub use derived::read_derived;
pub use formatted::format;
pub use made::{derivation_text, problem_text, say_made};
pub use modelled::model;
pub use named_log::log_name;
pub use parsed::parse;
pub use presented::{not_proved, over_size, proof_text, say_over};
pub use words::{Command, Job, read_words};
