//! What the code of a form comes to.

use crate::forms::form;
use crate::program::Program;
use asm430::Item;
use base16::{EndKind, Image, NoMemory, Reading, Sequence, Symbols};
use ideal430::{IdealEnd, IdealState, ideal_run};
use ir::Ir;
use isa430::{Instr, encode, valid};
use select430::select;
use std::alloc::Global;

/// The readings of each run.
const READINGS: [Reading; 3] = [
    Reading::Sense {
        channel: 3,
        value: 77,
    },
    Reading::Sense {
        channel: 5,
        value: 65530,
    },
    Reading::Clock { ms: 5 },
];

/// How a run stands, after the number of its marks.
fn end(alloc: Global, state: &IdealState) -> Result<String, NoMemory> {
    let marks = state.services;
    match state.end {
        IdealEnd::Ended(EndKind::Done) => Ok(format!(in alloc; "in {marks} marks")?),
        IdealEnd::Ended(EndKind::StackFull) => Ok(format!(in alloc;
            "in {marks} marks, stack full"
        )?),
        IdealEnd::Ended(EndKind::OutputFull) => Ok(format!(in alloc;
            "in {marks} marks, outputs full"
        )?),
        IdealEnd::Ended(EndKind::Wild { address }) => {
            Ok(format!(in alloc; "in {marks} marks, wild {address:x}")?)
        }
        IdealEnd::Ended(_) => Ok(format!(in alloc; "in {marks} marks, ended")?),
        IdealEnd::NeedsReading => Ok(format!(in alloc; "in {marks} marks, a reading is missing")?),
        IdealEnd::Running => Ok(format!(in alloc; "in {marks} marks, and goes on")?),
    }
}

/// The outputs, and how the run stands.
fn told(alloc: Global, state: &IdealState) -> Result<String, NoMemory> {
    let words = state.words.as_slice();
    let count = usize::from(words.get(0xd00).copied().unwrap_or(0));
    let mut text = String::new(alloc);
    for word in words.iter().skip(0xd01).take(count) {
        let output = format!(in alloc; "{word} ")?;
        text.push_str(output.as_str())?;
    }
    let end = end(alloc, state)?;
    text.push_str(end.as_str())?;
    Ok(text)
}

fn image(alloc: Global, code: Vec<u16>, globals: Vec<u16>) -> Image {
    Image {
        code: Sequence::from_vec(code),
        tables: 0,
        globals: Sequence::from_vec(globals),
        symbols: Symbols {
            scalars: Sequence::new(alloc),
            functions: Sequence::new(alloc),
        },
    }
}

/// The run of words of code on data.
fn run(alloc: Global, code: Vec<u16>, globals: Vec<u16>) -> Result<String, NoMemory> {
    let image = image(alloc, code, globals);
    if image.code.len() > 14336 || image.globals.len() > 8192 {
        return Ok(format!(in alloc; "too long")?);
    }
    let state = ideal_run(alloc, &image, &READINGS, 50000)?;
    told(alloc, &state)
}

fn run_of(alloc: Global, ir: &Ir, globals: Vec<u16>) -> Result<String, NoMemory> {
    let mut program = Program::new(alloc);
    program.push_all(alloc, ir)?;
    match program.words(alloc) {
        Ok(code) => run(alloc, code, globals),
        Err(fault) => Ok(format!(in alloc; "{fault}")?),
    }
}

fn words(alloc: Global, text: &str) -> Result<Vec<u16>, NoMemory> {
    let mut words = Vec::new(alloc);
    for word in text.split_whitespace() {
        words.push(word.parse::<u16>().unwrap_or(0))?;
    }
    Ok(words)
}

/// What the run of a form gives.
pub fn outputs(alloc: Global, variables: &str, data: &str, text: &str) -> Result<String, NoMemory> {
    let mut is_read = true;
    let ir = form(alloc, variables, text, &mut is_read)?;
    if !is_read {
        return Ok(format!(in alloc; "missing: a step is not known")?);
    }
    let globals = words(alloc, data)?;
    run_of(alloc, &ir, globals)
}

/// The words of an instruction.
fn instr(alloc: Global, text: &mut String, instr: &Instr) -> Result<(), NoMemory> {
    if !valid(instr) {
        text.push_str(" no instruction")?;
        return Ok(());
    }
    let code = encode(instr);
    for word in code.words.iter().take(usize::from(code.len)) {
        let word = format!(in alloc; " {word:04x}")?;
        text.push_str(word.as_str())?;
    }
    Ok(())
}

fn item(alloc: Global, text: &mut String, item: &Item) -> Result<(), NoMemory> {
    match item {
        Item::Instr(one) => instr(alloc, text, one)?,
        _ => {
            let printed = format!(in alloc; " {item:?}")?;
            text.push_str(printed.as_str())?;
        }
    }
    Ok(())
}

/// The items of each step of `main`: the words of instructions, a comma behind each item and a semicolon behind each step.
pub fn items(alloc: Global, variables: &str, text: &str) -> Result<String, NoMemory> {
    let mut is_read = true;
    let ir = form(alloc, variables, text, &mut is_read)?;
    let mut printed = String::new(alloc);
    let Some(main) = ir.functions.as_slice().get(usize::from(ir.main)) else {
        return Ok(printed);
    };
    let mut place = 0u32;
    for _step in main.steps.as_slice() {
        let items = select(alloc, &ir, ir.main, place)?;
        for one in items.as_slice() {
            item(alloc, &mut printed, one)?;
            printed.push_str(",")?;
        }
        printed.push_str(";")?;
        place = place.wrapping_add(1);
    }
    Ok(printed)
}
