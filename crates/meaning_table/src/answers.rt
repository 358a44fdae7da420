//! What programs come to.

ghost use Rattle.std.specs.Prelude.{◌<◌, ◌^◌, length};

use crate::{forms, images};
use base16::Reading;
use c_interpreter::meaning;
use c_lex::{Token, lex};
use c_meaning::CState;
use c_parse::parse;
use c_tree::Tree;
use c_types::check;
use core_tree::Core;
use ir_build::generate;
use report_state::state_text;
use std::alloc::{AllocError, Global};
use world::parse_readings;

/// The most bytes of a source and of its readings.
const MOST_BYTES: usize = 1_000_000;

/// What comes to something else than the program, whose state after so many marks has this text: its form, or its image.
fn differs(
    alloc: Global,
    core: &Core,
    readings: &[Reading],
    marks: u32,
    state: &CState,
    text: &[u8],
) -> Result<Option<&'static [u8]>, AllocError> {
    let Ok(ir) = generate(alloc, core) else {
        return Err(AllocError);
    };
    if !forms::comes_to(alloc, core, &ir, readings, marks, text)? {
        return Ok(Some(b"its form comes to something else\n"));
    }
    if !images::comes_to(alloc, core, &ir, readings, marks, state)? {
        return Ok(Some(b"its image comes to something else\n"));
    }
    Ok(None)
}

/// The text of the state of a program after so many marks, to which its form and its image have to come as well.
fn of_core(
    alloc: Global,
    core: &Core,
    readings: &[Reading],
    marks: u32,
) -> Result<Vec<u8>, AllocError> {
    let Ok(state) = meaning(alloc, core, readings, marks) else {
        return Err(AllocError);
    };
    let Ok(text) = state_text(alloc, &state, core) else {
        return Err(AllocError);
    };
    // Of a program whose run is undefined nothing is said of the others.
    if matches!(state, CState::Undefined { .. }) {
        return Ok(text);
    }
    match differs(alloc, core, readings, marks, &state, text.as_slice())? {
        None => Ok(text),
        Some(found) => Vec::from_slice(alloc, found),
    }
}

/// That of the program of a tree.
fn of_tree(
    alloc: Global,
    tree: &Tree,
    readings: &[Reading],
    marks: u32,
) -> Result<Vec<u8>, AllocError> {
    match check(alloc, tree) {
        Ok(typed) => of_core(alloc, &typed.core, readings, marks),
        Err(_) => Vec::from_slice(alloc, b"no program\n"),
    }
}

/// That of the program of some tokens.
fn of_tokens(
    alloc: Global,
    tokens: &[Token],
    readings: &[Reading],
    marks: u32,
) -> Result<Vec<u8>, AllocError> {
    match parse(alloc, tokens) {
        Ok(tree) => of_tree(alloc, &tree, readings, marks),
        Err(_) => Vec::from_slice(alloc, b"no tree\n"),
    }
}

/// That of the program of a source.
fn of_source(
    alloc: Global,
    source: &[u8],
    readings: &[Reading],
    marks: u32,
) -> Result<Vec<u8>, AllocError>
    requires { length source.now < 2 ^ 32 }
{
    match lex(alloc, source) {
        Ok(tokens) => of_tokens(alloc, tokens.as_slice(), readings, marks),
        Err(_) => Vec::from_slice(alloc, b"no tokens\n"),
    }
}

/// The text of the state to which the program of a source comes on the readings of a file after so many marks.
#[tactic(auto, using(crate::proofs::Lines::few_lines))]
pub fn answer(
    alloc: Global,
    source: &str,
    readings: &str,
    marks: u32,
) -> Result<Vec<u8>, AllocError> {
    if source.len() > MOST_BYTES || readings.len() > MOST_BYTES {
        return Vec::from_slice(alloc, b"too big\n");
    }
    match parse_readings(alloc, readings.as_bytes()) {
        Ok(list) => of_source(alloc, source.as_bytes(), list.as_slice(), marks),
        Err(_) => Vec::from_slice(alloc, b"no readings\n"),
    }
}
