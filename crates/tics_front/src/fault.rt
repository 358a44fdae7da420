ghost use Rattle.std.specs.Prelude.{◌≡◌, ◌++◌, codes, IfOk};
ghost use Rattle.std.specs.Fmt.{decimal};
ghost use Rattle.tics_front.specs.Source as spec;

use base16::NoMemory;
use c_typing::{Fault, Rule};
use std::alloc::Global;

/// Why a source is refused. A line is counted from 1 and is that of the place of the fault.
#[derive(Clone, Copy, Debug, PartialEq, Eq)]
pub enum SourceFault {
    /// It has more than 262,144 bytes; printed as S5.
    TooBig,
    /// A byte begins no token; printed as L1.
    BadByte { line: u32 },
    /// A comment has no end; printed as L2.
    OpenComment { line: u32 },
    /// Digits with what stands behind them are no number; printed as L3.
    BadNumber { line: u32 },
    /// A `'` begins no character constant; printed as L4.
    BadChar { line: u32 },
    /// The tokens spell no tree of height 400 at most; printed as P1.
    Syntax { line: u32 },
    /// The tree has more than 20,000 nodes; printed as S4.
    TooManyNodes,
    /// It breaks this rule of the language first; printed as E1 to E10. That `main` is not defined has no line.
    Broken(Fault),
}

/// The line of a refusal without a place.
fn refused_line(alloc: Global, code: &[u8]) -> Result<Vec<u8>, NoMemory>
    ensures { IfOk result (λ text. text.items ≡ spec.refused_line code.now) }
{
    let mut text = Vec::from_slice(alloc, b"source ")?;
    text.extend_from_slice(code)?;
    text.push(b'\n')?;
    Ok(text)
}

/// The line of a refusal at a line of the source.
fn refused_at(alloc: Global, code: &[u8], line: u32) -> Result<Vec<u8>, NoMemory>
    ensures { IfOk result (λ text. text.items ≡ spec.refused_at code.now line) }
{
    let mut text = Vec::from_slice(alloc, b"source ")?;
    text.extend_from_slice(code)?;
    text.extend_from_slice(b" line ")?;
    let digits = line.to_string(alloc)?;
    text.extend_from_slice(digits.as_bytes())?;
    text.push(b'\n')?;
    Ok(text)
}

/// How a rule of the language is printed.
fn rule_code(rule: Rule) -> &'static [u8]
    ensures { result.now ≡ spec.rule_code rule }
{
    match rule {
        Rule::Unknown => b"E1".as_slice(),
        Rule::Twice => b"E2".as_slice(),
        Rule::WrongType => b"E3".as_slice(),
        Rule::NotPlace => b"E4".as_slice(),
        Rule::WrongArgs => b"E5".as_slice(),
        Rule::Incomplete => b"E6".as_slice(),
        Rule::TooBig => b"E7".as_slice(),
        Rule::NoMain => b"E8".as_slice(),
        Rule::ConstWrite => b"E9".as_slice(),
        Rule::NotConstant => b"E10".as_slice(),
    }
}

/// Whether a rule is broken at a line.
fn has_line(rule: Rule) -> bool
    ensures { result ≡ spec.has_line rule }
{
    match rule {
        Rule::NoMain => false,
        _ => true,
    }
}

/// The line of a refusal by a rule of the language.
fn broken(alloc: Global, fault: Fault) -> Result<Vec<u8>, NoMemory>
    ensures { IfOk result (λ text. text.items ≡ spec.broken_text fault) }
{
    let code = rule_code(fault.rule);
    if has_line(fault.rule) {
        refused_at(alloc, code, fault.line)
    } else {
        refused_line(alloc, code)
    }
}

impl SourceFault {
    /// What is printed of it.
    pub fn text(self, alloc: Global) -> Result<Vec<u8>, NoMemory>
        ensures { IfOk result (λ text. text.items ≡ spec.refusal_text self) }
    {
        match self {
            SourceFault::TooBig => refused_line(alloc, b"S5"),
            SourceFault::BadByte { line } => refused_at(alloc, b"L1", line),
            SourceFault::OpenComment { line } => refused_at(alloc, b"L2", line),
            SourceFault::BadNumber { line } => refused_at(alloc, b"L3", line),
            SourceFault::BadChar { line } => refused_at(alloc, b"L4", line),
            SourceFault::Syntax { line } => refused_at(alloc, b"P1", line),
            SourceFault::TooManyNodes => refused_line(alloc, b"S4"),
            SourceFault::Broken(fault) => broken(alloc, fault),
        }
    }
}
