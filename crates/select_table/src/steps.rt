//! Steps, as rows write them: a word for the kind, then what the kind has, in the order of its fields.

use crate::operands::{
    flag, int_type, keep, kind, number, operand, operation, place, short, target, unary_operator,
    whole, word,
};
use ir::{Base, StepKind, Test};

fn value_step(words: &[&str], depth: u32) -> Option<StepKind> {
    match word(words, 0)? {
        "put" => Some(StepKind::Put {
            depth,
            value: operand(words, 2)?,
        }),
        "nothing" => Some(StepKind::Nothing { depth }),
        "drop" => Some(StepKind::Drop { depth }),
        "beside" => Some(StepKind::Beside {
            depth,
            operation: operation(words, 2)?,
        }),
        "convert" => Some(StepKind::Convert {
            depth,
            to: int_type(words, 2)?,
            value: operand(words, 3)?,
        }),
        "unary" => Some(StepKind::Unary {
            depth,
            op: unary_operator(words, 2)?,
            at: int_type(words, 3)?,
            value: operand(words, 4)?,
        }),
        "binary" => Some(StepKind::Binary {
            depth,
            operation: operation(words, 2)?,
            left: operand(words, 3)?,
            right: operand(words, 4)?,
        }),
        "truth" => Some(StepKind::Truth {
            depth,
            of: int_type(words, 2)?,
            value: operand(words, 3)?,
        }),
        _ => place_step(words, depth),
    }
}

fn place_step(words: &[&str], depth: u32) -> Option<StepKind> {
    match word(words, 0)? {
        "address" => {
            let (of, offset) = place(words, 2)?;
            Some(StepKind::Address { depth, of, offset })
        }
        "follow" => Some(StepKind::Follow {
            depth,
            value: operand(words, 2)?,
        }),
        "member" => Some(StepKind::Member {
            depth,
            offset: number(words, 2)?,
        }),
        "element" => Some(StepKind::Element {
            depth,
            size: number(words, 2)?,
            own: int_type(words, 3)?,
            index: operand(words, 4)?,
        }),
        "sum" => Some(StepKind::Sum {
            depth,
            size: number(words, 2)?,
            left_type: int_type(words, 3)?,
            right_type: int_type(words, 4)?,
            swapped: flag(words, 5)?,
            left: operand(words, 6)?,
            right: operand(words, 7)?,
        }),
        "point" => Some(StepKind::PointTo { depth }),
        "load" => Some(StepKind::Load {
            depth,
            kind: kind(words, 2)?,
        }),
        "peek" => Some(StepKind::Peek {
            depth,
            kind: kind(words, 2)?,
        }),
        _ => store_step(words, depth),
    }
}

/// The number of a local, and an offset in it.
fn local(words: &[&str]) -> Option<(u32, u16)> {
    let (of, offset) = place(words, 2)?;
    match of {
        Base::Local(number) => Some((number, offset)),
        Base::Global(_) => None,
    }
}

fn store_step(words: &[&str], depth: u32) -> Option<StepKind> {
    match word(words, 0)? {
        "store" => Some(StepKind::Store {
            depth,
            target: target(words, 2)?,
            kind: kind(words, 3)?,
            value: operand(words, 4)?,
            keep: keep(words, 5)?,
        }),
        "store_local" => {
            let (local, offset) = local(words)?;
            Some(StepKind::StoreLocal {
                depth,
                local,
                offset,
                kind: kind(words, 3)?,
                value: operand(words, 4)?,
                keep: keep(words, 5)?,
            })
        }
        "update" => Some(StepKind::Update {
            depth,
            target: target(words, 2)?,
            kind: kind(words, 3)?,
            operation: operation(words, 4)?,
            value: operand(words, 5)?,
            keep: keep(words, 6)?,
        }),
        "update_local" => {
            let (local, offset) = local(words)?;
            Some(StepKind::UpdateLocal {
                depth,
                local,
                offset,
                kind: kind(words, 3)?,
                operation: operation(words, 4)?,
                value: operand(words, 5)?,
                keep: keep(words, 6)?,
            })
        }
        _ => call_step(words, depth),
    }
}

/// A value, or an operation with two values.
fn test(words: &[&str]) -> Option<Test> {
    if words.len() == 6 {
        return Some(Test::Value(operand(words, 5)?));
    }
    Some(Test::Computed {
        operation: operation(words, 5)?,
        left: operand(words, 6)?,
        right: operand(words, 7)?,
    })
}

fn call_step(words: &[&str], depth: u32) -> Option<StepKind> {
    match word(words, 0)? {
        "branch" => Some(StepKind::Branch {
            depth,
            of: int_type(words, 2)?,
            when: flag(words, 3)?,
            to: number(words, 4)?,
            test: test(words)?,
        }),
        "case" => Some(StepKind::Case {
            depth,
            of: int_type(words, 2)?,
            value: whole(words, 3)?,
            to: number(words, 4)?,
        }),
        "call" => Some(StepKind::Call {
            depth,
            function: short(words, 2)?,
            args: short(words, 3)?,
        }),
        "result" => Some(StepKind::Result {
            depth,
            kept: flag(words, 2)?,
        }),
        "return" => Some(StepKind::Return {
            depth,
            value: operand(words, 2)?,
        }),
        _ => service_step(words, depth),
    }
}

fn service_step(words: &[&str], depth: u32) -> Option<StepKind> {
    match word(words, 0)? {
        "sense" => Some(StepKind::Sense {
            depth,
            channel: word(words, 2)?.parse::<u8>().ok()?,
        }),
        "emit" => Some(StepKind::Emit {
            depth,
            value: operand(words, 2)?,
        }),
        "checkpoint" => Some(StepKind::Checkpoint { depth }),
        _ => None,
    }
}

/// The step that these words write; most kinds have a depth first.
pub fn step(words: &[&str]) -> Option<StepKind> {
    match word(words, 0)? {
        "undefine" => Some(StepKind::Undefine {
            local: number(words, 1)?,
        }),
        "jump" => Some(StepKind::Jump {
            to: number(words, 1)?,
        }),
        "enter" => Some(StepKind::Enter {
            params: short(words, 1)?,
        }),
        "leave" => Some(StepKind::ReturnNothing),
        "turn" => Some(StepKind::Turn),
        _ => value_step(words, number(words, 1)?),
    }
}
