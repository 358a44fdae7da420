//! From the bytes of a source to its tree.

ghost use Rattle.std.specs.Prelude.{◌≡◌, ◌≤◌, length, IfOk, IsErrOf};
ghost use Rattle.tics_front.specs.declared.fault.SourceFault.{SourceFault as ASourceFault};
ghost use Rattle.tics_front.specs.declared.tree.FrontErr.TheVariants.{NoMemory as front_no_memory};
ghost use Rattle.tics_front.specs.Source.{IsLexed, IsParsed, IsRead, IsRefused, most_bytes};

use crate::fault::SourceFault;
use c_lex::{LexErr, Token, lex, line_at, line_of_token};
use c_parse::{ParseErr, parse};
use c_tree::{Tree, nodes};
use sqlite_items::Boxed;
use std::alloc::{AllocError, Global};

/// Most nodes of a tree.
const NODE_LIMIT: u32 = 20_000;

/// Why a source has no typed tree.
#[derive(Clone, Copy, Debug, PartialEq, Eq)]
pub enum FrontErr {
    Refused(SourceFault),
    /// It has annotations about time, which are not checked yet.
    Annotated,
    NoMemory,
}

impl From<AllocError> for FrontErr {
    ghost from_gives = { λ _ e. e ≡ front_no_memory };

    fn from(_error: AllocError) -> FrontErr {
        FrontErr::NoMemory
    }
}

/// The tokens of a source.
fn tokens_of(alloc: Global, source: &[u8]) -> Result<Vec<Token>, FrontErr>
    requires { length source.now ≤ most_bytes }
    ensures ok { IfOk result (λ tokens. IsLexed source.now tokens.items) }
    ensures refused { (fault : ASourceFault) → IsErrOf result (FrontErr.Refused fault) → IsRefused source.now fault }
    ensures plain { IsErrOf result FrontErr.Annotated → ⊥ }
{
    let fault = match lex(alloc, source) {
        Ok(tokens) => return Ok(tokens),
        Err(LexErr::BadByte { at }) => SourceFault::BadByte {
            line: line_at(source, at),
        },
        Err(LexErr::OpenComment { at }) => SourceFault::OpenComment {
            line: line_at(source, at),
        },
        Err(LexErr::BadNumber { at }) => SourceFault::BadNumber {
            line: line_at(source, at),
        },
        Err(LexErr::BadChar { at }) => SourceFault::BadChar {
            line: line_at(source, at),
        },
        Err(LexErr::NoMemory) => return Err(FrontErr::NoMemory),
    };
    Err(FrontErr::Refused(fault))
}

/// The tree of a source of at most 262,144 bytes, or why it is refused.
pub fn tree_of(alloc: Global, source: &[u8]) -> Result<Boxed<Tree>, FrontErr>
    requires { length source.now ≤ most_bytes }
    ensures ok { IfOk result (λ tree. IsRead source.now tree) }
    ensures refused { (fault : ASourceFault) → IsErrOf result (FrontErr.Refused fault) → IsRefused source.now fault }
    ensures plain { IsErrOf result FrontErr.Annotated → ⊥ }
{
    let tokens = match tokens_of(alloc, source) {
        Ok(tokens) => tokens,
        Err(error) => return Err(error),
    };
    let tree = match parse(alloc, tokens.as_slice()) {
        Ok(tree) => Boxed::new(alloc, tree)?,
        Err(ParseErr::Syntax { token }) => {
            let line = line_of_token(tokens.as_slice(), token);
            return Err(FrontErr::Refused(SourceFault::Syntax { line }));
        }
        Err(ParseErr::NoMemory) => return Err(FrontErr::NoMemory),
    };
    if nodes(tree.get()) > NODE_LIMIT {
        return Err(FrontErr::Refused(SourceFault::TooManyNodes));
    }
    Ok(tree)
}
