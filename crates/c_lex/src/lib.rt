//! Tokens of a C source: names, keywords, numbers, characters, annotations and marks (C99 6.4, in this project's profile).
#![tactic(auto)]

mod bytes;
mod item;
mod lexer;
mod numbers;
mod pieces;
mod spelling;
mod token;

pub use item::LexErr;
pub use lexer::{
    each_source_is_read_in_one_way, each_spelling_is_read, lex, line_at, line_of_token,
};
pub use token::{Keyword, Mark, Note, Token, TokenKind};
