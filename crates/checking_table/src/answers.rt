//! What sources answer.

ghost use Rattle.std.specs.Prelude.{◌<◌, ◌^◌, length};

use c_lex::{Token, lex};
use c_parse::parse;
use c_tree::Tree;
use c_types::check;
use c_typing::{Fault, Rule, Stop};
use std::alloc::{AllocError, Global};

fn code(rule: Rule) -> &'static str {
    match rule {
        Rule::Unknown => "E1",
        Rule::Twice => "E2",
        Rule::WrongType => "E3",
        Rule::NotPlace => "E4",
        Rule::WrongArgs => "E5",
        Rule::Incomplete => "E6",
        Rule::TooBig => "E7",
        Rule::NoMain => "E8",
        Rule::ConstWrite => "E9",
        Rule::NotConstant => "E10",
    }
}

/// What the tree of a source answers: nothing where it is accepted.
fn judged(alloc: Global, tree: &Tree) -> Result<Option<Fault>, AllocError> {
    match check(alloc, tree) {
        Ok(_) => Ok(None),
        Err(Stop::Broken(fault)) => Ok(Some(fault)),
        Err(Stop::NoMemory) => Err(AllocError),
    }
}

/// The answer to the tokens of a source.
fn parsed(alloc: Global, tokens: &[Token]) -> Result<String, AllocError> {
    let Ok(tree) = parse(alloc, tokens) else {
        return format!(in alloc; "no tree");
    };
    match judged(alloc, &tree)? {
        None => format!(in alloc; "accepted"),
        Some(Fault { rule, line: 0 }) => format!(in alloc; "{}", code(rule)),
        Some(Fault { rule, line }) => format!(in alloc; "{} line {line}", code(rule)),
    }
}

fn told(alloc: Global, source: &[u8]) -> Result<String, AllocError>
    requires { length source.now < 2 ^ 32 }
{
    match lex(alloc, source) {
        Ok(tokens) => parsed(alloc, tokens.as_slice()),
        Err(_) => format!(in alloc; "no tokens"),
    }
}

/// The answer to a source, as the program `tics` prints it.
pub fn answer(alloc: Global, source: &str) -> Result<String, AllocError> {
    if source.len() > 1_000_000 {
        return format!(in alloc; "too big");
    }
    told(alloc, source.as_bytes())
}
