//! Forms, as rows write them.

use crate::steps::step;
use base16::{Kind, NoMemory, Sequence};
use core_tree::Slot;
use ir::{Ir, IrFunction, IrGlobal, IrLocal, Step};
use std::alloc::Global;

/// Scalars one behind the other: a letter for the kind of each.
fn slots(alloc: Global, kinds: &str) -> Result<Sequence<Slot>, NoMemory> {
    let mut slots = Sequence::new(alloc);
    let mut offset = 0u16;
    for letter in kinds.chars() {
        let (kind, bytes) = match letter {
            'c' => (Kind::Char, 1),
            'u' => (Kind::UInt, 2),
            'p' => (Kind::Pointer, 2),
            _ => (Kind::Int, 2),
        };
        slots.push(Slot { offset, kind })?;
        offset = offset.wrapping_add(bytes);
    }
    Ok(slots)
}

/// What stands at an offset: the offset, a colon and the scalars.
fn locals(alloc: Global, text: &str) -> Result<Sequence<IrLocal>, NoMemory> {
    let mut locals = Sequence::new(alloc);
    for part in text.split_whitespace() {
        if let Some((offset, kinds)) = part.split_once(':') {
            let scalars = slots(alloc, kinds)?;
            locals.push(IrLocal {
                offset: offset.parse::<u32>().unwrap_or(0),
                scalars,
            })?;
        }
    }
    Ok(locals)
}

/// What stands at an address, in the same way.
fn globals(alloc: Global, text: &str) -> Result<Sequence<IrGlobal>, NoMemory> {
    let mut globals = Sequence::new(alloc);
    for part in text.split_whitespace() {
        if let Some((address, kinds)) = part.split_once(':') {
            let scalars = slots(alloc, kinds)?;
            globals.push(IrGlobal {
                address: address.parse::<u16>().unwrap_or(0),
                scalars,
                init: Sequence::new(alloc),
                lifetime: None,
            })?;
        }
    }
    Ok(globals)
}

/// The steps that texts write; `is_read` becomes false where one writes none.
fn steps(alloc: Global, text: &str, is_read: &mut bool) -> Result<Sequence<Step>, NoMemory> {
    let mut steps = Sequence::new(alloc);
    for part in text.split(';') {
        let words: Vec<&str> = part.split_whitespace().collect(alloc)?;
        match step(words.as_slice()) {
            Some(kind) => steps.push(Step { node: 0, kind })?,
            None => *is_read = false,
        }
    }
    Ok(steps)
}

/// A function: the bytes of its frame, its locals, an equals sign, and its steps with semicolons between them.
fn function(alloc: Global, text: &str, is_read: &mut bool) -> Result<IrFunction, NoMemory> {
    let (head, body) = text.split_once('=').unwrap_or(("", text));
    let (frame, objects) = head.split_once(',').unwrap_or(("", head));
    let locals = locals(alloc, objects)?;
    let steps = steps(alloc, body, is_read)?;
    Ok(IrFunction {
        frame: frame.trim().parse::<u32>().unwrap_or(0),
        params: 0,
        locals,
        steps,
    })
}

/// The form of functions with @ between them, the last of which is `main`.
pub fn form(
    alloc: Global,
    variables: &str,
    text: &str,
    is_read: &mut bool,
) -> Result<Ir, NoMemory> {
    let globals = globals(alloc, variables)?;
    let mut functions = Sequence::new(alloc);
    let mut main = 0u16;
    let mut number = 0u16;
    for part in text.split('@') {
        let function = function(alloc, part, is_read)?;
        functions.push(function)?;
        main = number;
        number = number.wrapping_add(1);
    }
    Ok(Ir {
        functions,
        globals,
        tables: Sequence::new(alloc),
        main,
    })
}
