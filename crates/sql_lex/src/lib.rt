//! Cuts the text of a statement into tokens: names, keywords, numbers, texts in quotes, and marks.
#![tactic(auto)]

mod bytes;
mod filler;
mod keyword;
mod lexer;
mod quoted;
mod scan;
mod token;

pub use lexer::Lexer;
pub use token::{SyntaxAt, Token, TokenKind};
