use crate::token::TokenKind;
use thiserror::Error;

/// What a piece of a source is.
#[derive(Debug, Drop)]
pub enum Item {
    /// Blanks, a comment or a line marker.
    Skip,
    Token(TokenKind),
    /// A piece that is no token.
    Bad(Fault),
}

/// Why a piece is no token.
#[derive(Clone, Copy, Debug, PartialEq, Eq)]
pub enum Fault {
    OpenComment,
    BadNumber,
    BadChar,
}

/// Why a source is no list of tokens; `at` is the place of a byte, from 0: that of the first byte of the first piece
/// that is none.
#[derive(Clone, Copy, Debug, PartialEq, Eq, Error)]
pub enum LexErr {
    /// A byte that begins no token, such as `#`, `"`, `\` and a lone `@`; printed as L1.
    #[error("no token begins at byte {at}")]
    BadByte { at: u32 },
    /// A comment without its end, at its `/`; printed as L2.
    #[error("the comment at byte {at} has no end")]
    OpenComment { at: u32 },
    /// A digit with the letters, digits and `_` behind it that are no number; printed as L3.
    #[error("no number stands at byte {at}")]
    BadNumber { at: u32 },
    /// A `'` that begins no character constant; printed as L4.
    #[error("no character constant stands at byte {at}")]
    BadChar { at: u32 },
    /// Memory ran out.
    #[error("memory ran out")]
    NoMemory,
}
