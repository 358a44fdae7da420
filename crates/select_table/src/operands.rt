//! Values, places and operations, as rows write them.

use base16::{BinaryOp, IntType, Kind, UnaryOp};
use ir::{Base, Keep, Operand, Operation, Target};

/// The word of a number in a step.
pub fn word<'a>(words: &[&'a str], at: usize) -> Option<&'a str> {
    words.get(at).copied()
}

/// The number that it writes.
pub fn number(words: &[&str], at: usize) -> Option<u32> {
    word(words, at)?.parse::<u32>().ok()
}

pub fn short(words: &[&str], at: usize) -> Option<u16> {
    word(words, at)?.parse::<u16>().ok()
}

pub fn whole(words: &[&str], at: usize) -> Option<i64> {
    word(words, at)?.parse::<i64>().ok()
}

/// The kind that it names.
pub fn kind(words: &[&str], at: usize) -> Option<Kind> {
    named_kind(word(words, at)?)
}

fn named_kind(text: &str) -> Option<Kind> {
    match text {
        "c" => Some(Kind::Char),
        "i" => Some(Kind::Int),
        "u" => Some(Kind::UInt),
        "p" => Some(Kind::Pointer),
        _ => None,
    }
}

pub fn int_type(words: &[&str], at: usize) -> Option<IntType> {
    named_type(word(words, at)?)
}

fn named_type(text: &str) -> Option<IntType> {
    match text {
        "c" => Some(IntType::Char),
        "i" => Some(IntType::Int),
        "u" => Some(IntType::UInt),
        _ => None,
    }
}

/// An object: L for a local or G for a variable, and its number.
fn base(text: &str) -> Option<Base> {
    if let Some(rest) = text.strip_prefix('L') {
        return Some(Base::Local(rest.parse::<u32>().ok()?));
    }
    let rest = text.strip_prefix('G')?;
    Some(Base::Global(rest.parse::<u32>().ok()?))
}

/// A known place: an object, a dot and an offset.
fn known_place(text: &str) -> Option<(Base, u16)> {
    let (object, offset) = text.split_once('.')?;
    let of = base(object)?;
    let offset = offset.parse::<u16>().ok()?;
    Some((of, offset))
}

pub fn place(words: &[&str], at: usize) -> Option<(Base, u16)> {
    known_place(word(words, at)?)
}

/// A place on the stack, or a known one.
pub fn target(words: &[&str], at: usize) -> Option<Target> {
    let text = word(words, at)?;
    if text == "t" {
        return Some(Target::Temporary);
    }
    let (of, offset) = known_place(text)?;
    Some(Target::Known { of, offset })
}

/// A known place, a colon and a kind.
fn scalar(text: &str) -> Option<Operand> {
    let (place, kind) = text.split_once(':')?;
    let (of, offset) = known_place(place)?;
    let kind = named_kind(kind)?;
    Some(Operand::Scalar { of, offset, kind })
}

/// A temporary, the null pointer, a number or a scalar.
pub fn operand(words: &[&str], at: usize) -> Option<Operand> {
    match word(words, at)? {
        "t" => Some(Operand::Temporary),
        "null" => Some(Operand::Null),
        text => match text.parse::<i64>() {
            Ok(value) => Some(Operand::Constant(value)),
            Err(_) => scalar(text),
        },
    }
}

pub fn unary_operator(words: &[&str], at: usize) -> Option<UnaryOp> {
    match word(words, at)? {
        "+" => Some(UnaryOp::Plus),
        "-" => Some(UnaryOp::Minus),
        "~" => Some(UnaryOp::Complement),
        "!" => Some(UnaryOp::Not),
        _ => None,
    }
}

fn operator(text: &str) -> Option<BinaryOp> {
    match text {
        "+" => Some(BinaryOp::Add),
        "-" => Some(BinaryOp::Sub),
        "*" => Some(BinaryOp::Mul),
        "/" => Some(BinaryOp::Div),
        "%" => Some(BinaryOp::Rem),
        "<<" => Some(BinaryOp::Shl),
        ">>" => Some(BinaryOp::Shr),
        "&" => Some(BinaryOp::And),
        "^" => Some(BinaryOp::Xor),
        "|" => Some(BinaryOp::Or),
        _ => comparison(text),
    }
}

fn comparison(text: &str) -> Option<BinaryOp> {
    match text {
        "<" => Some(BinaryOp::Less),
        ">" => Some(BinaryOp::Greater),
        "<=" => Some(BinaryOp::LessEq),
        ">=" => Some(BinaryOp::GreaterEq),
        "==" => Some(BinaryOp::Equal),
        "!=" => Some(BinaryOp::NotEqual),
        _ => None,
    }
}

/// A pointer and a number of elements of a size, or two pointers.
fn sized(word: &str, size: u32) -> Option<Operation> {
    let (minus, swapped) = match word {
        "plus" => (false, false),
        "minus" => (true, false),
        "swapped" => (false, true),
        "difference" => return Some(Operation::Difference { size }),
        _ => return None,
    };
    Some(Operation::PointerPlus {
        minus,
        size,
        left: None,
        right: None,
        swapped,
    })
}

/// An operator with p behind it for pointers, or a type; or what is done with elements, a colon and their size.
pub fn operation(words: &[&str], at: usize) -> Option<Operation> {
    let text = word(words, at)?;
    if let Some((name, size)) = text.split_once(':') {
        return sized(name, size.parse::<u32>().ok()?);
    }
    if let Some(op) = text.strip_suffix('p') {
        return Some(Operation::ComparePointers {
            op: comparison(op)?,
        });
    }
    if let Some(op) = text.strip_suffix('i') {
        return integers(op, IntType::Int);
    }
    if let Some(op) = text.strip_suffix('u') {
        return integers(op, IntType::UInt);
    }
    None
}

fn integers(text: &str, at: IntType) -> Option<Operation> {
    let op = operator(text)?;
    Some(Operation::Integers { op, at, own: at })
}

/// What a store leaves.
pub fn keep(words: &[&str], at: usize) -> Option<Keep> {
    match word(words, at)? {
        "nothing" => Some(Keep::Nothing),
        "stored" => Some(Keep::Stored),
        "before" => Some(Keep::Before),
        _ => None,
    }
}

/// Y or n.
pub fn flag(words: &[&str], at: usize) -> Option<bool> {
    match word(words, at)? {
        "y" => Some(true),
        "n" => Some(false),
        _ => None,
    }
}
