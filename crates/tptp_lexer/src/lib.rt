//! Texts in the TPTP language cut into tokens: the one list of longest tokens, each with its place.
#![tactic(auto)]

mod advance;
mod ahead;
mod bytes;
mod fault;
mod law;
mod lexeme;
mod lexer;
mod list;
mod make;
mod marks;
mod numbers;
mod quotes;
mod scan;
mod style;
mod through;
mod token;
mod word;

pub use fault::LexFault;
pub use law::{one_answer, one_token_list};
pub use lexer::tokens;
pub use list::{Rest, TokenList};
pub use scan::{Front, Kind, front_of};
pub use style::Style;
pub use token::{Mark, Token, Tokens};
pub use word::{Chars, Word};
