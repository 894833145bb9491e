//! A lexer that takes a text in pieces, and gives the tokens of all of them joined.
#![tactic(auto)]

mod law;
mod lexer;
mod settle;

pub use law::however_a_text_is_cut;
pub use lexer::Lexer;
