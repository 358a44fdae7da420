//! The lines of a state.

ghost use Rattle.std.specs.Prelude.{◌≡◌, ◌<◌, ◌^◌, ◌++◌, [], codes, map, slice_get, IfOk, OnOk, IfSome};
ghost use Rattle.std.specs.Fmt.{decimal, signed_decimal};
ghost use Rattle.std.specs.List.{filter, flat_map};
ghost use Rattle.base16.specs.Hexadecimal as hexadecimal;
ghost use Rattle.report.specs.Report as report;
ghost use Rattle.report_state.specs.Placed.{IsPlaced};
ghost use Rattle.report_state.specs.StateText as spec;

use crate::node_lines::line_of;
use crate::places::Places;
use base16::{EndKind, Kind, NoMemory, Scalar, Sequence, hex4, to_signed};
use c_meaning::CState;
use c_values::{Object, State, Value, word_of};
use core_layout::scalars;
use core_tree::Core;
use std::alloc::Global;

/// Adds bytes.
fn push_text(text: &mut Vec<u8>, more: &[u8]) -> Result<(), NoMemory>
    ensures { OnOk result (text.new.items ≡ text.old.items ++ more.now) }
{
    text.extend_from_slice(more)?;
    Ok(())
}

/// Adds a text and a number in decimal.
fn push_number(alloc: Global, text: &mut Vec<u8>, label: &[u8], number: u32) -> Result<(), NoMemory>
    ensures { OnOk result (text.new.items ≡ text.old.items ++ label.now ++ decimal number) }
{
    push_text(text, label)?;
    let digits = number.to_string(alloc)?;
    push_text(text, digits.as_bytes())
}

/// Adds a number in decimal, with its sign where it is below 0.
fn push_signed(alloc: Global, text: &mut Vec<u8>, number: i16) -> Result<(), NoMemory>
    ensures { OnOk result (text.new.items ≡ text.old.items ++ signed_decimal number) }
{
    let digits = number.to_string(alloc)?;
    push_text(text, digits.as_bytes())
}

/// Adds a word as the value of a scalar.
fn push_word(alloc: Global, text: &mut Vec<u8>, kind: Kind, word: u16) -> Result<(), NoMemory>
    ensures { OnOk result (text.new.items ≡ text.old.items ++ report.value_text kind word) }
{
    match kind {
        Kind::Char | Kind::UInt => push_number(alloc, text, b"", u32::from(word)),
        Kind::Int => push_signed(alloc, text, to_signed(word)),
        Kind::Pointer => push_text(text, &hex4(word)),
    }
}

/// Adds a pointer into an object that begins at an address, or into one that is gone.
fn push_pointer(text: &mut Vec<u8>, at: Option<u64>, offset: u16) -> Result<(), NoMemory>
    requires { IfSome at (λ n. n < 2 ^ 43) }
    ensures { OnOk result (text.new.items ≡ text.old.items ++ spec.pointer_text at offset) }
{
    match at {
        None => push_text(text, b"?"),
        Some(at) => push_text(text, &hex4(((at + u64::from(offset)) % 65_536) as u16)),
    }
}

/// Adds a value of a scalar.
fn push_value(
    alloc: Global,
    text: &mut Vec<u8>,
    places: &Places<'_>,
    state: &State,
    kind: Kind,
    value: Value,
) -> Result<(), NoMemory>
    requires { IsPlaced places.now }
    ensures { OnOk result (text.new.items ≡ text.old.items ++ spec.shown_value places.now.core.now state.now kind value) }
{
    match value {
        Value::Int(number) => push_word(alloc, text, kind, word_of(number)),
        Value::Pointer { object, offset } => {
            let at = places.object_address(alloc, state, object)?;
            push_pointer(text, at, offset)
        }
        Value::Null => push_text(text, &hex4(0)),
        Value::Undefined => push_text(text, b"?"),
    }
}

/// Adds the line of a scalar and its value.
fn push_set(
    alloc: Global,
    text: &mut Vec<u8>,
    places: &Places<'_>,
    state: &State,
    scalar: &Scalar,
    value: Value,
) -> Result<(), NoMemory>
    requires { IsPlaced places.now }
    ensures { OnOk result (text.new.items ≡ text.old.items ++ spec.set_line places.now.core.now state.now scalar.now value) }
{
    push_text(text, b"set ")?;
    push_text(text, scalar.name.bytes())?;
    push_text(text, b" ")?;
    push_value(alloc, text, places, state, scalar.kind, value)?;
    push_text(text, b"\n")
}

/// Adds the values of an object's scalars.
#[tactic(auto, using(crate::proofs::Texts::cells_turn))]
fn push_cells(values: &mut Sequence<Value>, object: &Object) -> Result<(), NoMemory>
    ensures { OnOk result (values.new ≡ values.old ++ spec.object_values object.now) }
{
    for cell in object.cells.as_slice() {
        values.push(cell.value)?;
    }
    Ok(())
}

/// The values of the variables' scalars, in order.
#[tactic(auto, using(crate::proofs::Texts::objects_turn))]
fn values_of(alloc: Global, state: &State) -> Result<Sequence<Value>, NoMemory>
    ensures { IfOk result (λ values. values ≡ spec.values_of state.now) }
{
    let mut values = Sequence::new(alloc);
    for object in state.globals.as_slice() {
        push_cells(&mut values, object)?;
    }
    Ok(values)
}

/// Adds the lines of the scalars.
#[tactic(auto, using(crate::proofs::Texts::pairs_turn, crate::proofs::Texts::pairs_none))]
fn push_sets(
    alloc: Global,
    text: &mut Vec<u8>,
    places: &Places<'_>,
    state: &State,
    scalars: &[Scalar],
    values: &[Value],
) -> Result<(), NoMemory>
    requires { IsPlaced places.now }
    ensures { OnOk result (text.new.items ≡ text.old.items
        ++ spec.for_each (spec.set_line places.now.core.now state.now) scalars.now values.now) }
{
    for at in 0..scalars.len() {
        if at >= values.len() {
            return Ok(());
        }
        push_set(alloc, text, places, state, &scalars[at], values[at])?;
    }
    Ok(())
}

/// Adds the line of a stamp in milliseconds.
fn push_stamp(
    alloc: Global,
    text: &mut Vec<u8>,
    scalar: &Scalar,
    stamp: Option<u32>,
) -> Result<(), NoMemory>
    ensures { OnOk result (text.new.items ≡ text.old.items ++ spec.stamp_line scalar.now stamp) }
{
    push_text(text, b"stamp ")?;
    push_text(text, scalar.name.bytes())?;
    match stamp {
        None => push_text(text, b" none")?,
        Some(ms) => push_number(alloc, text, b" ", ms)?,
    }
    push_text(text, b"\n")
}

/// Adds the lines of the stamps.
#[tactic(auto, using(crate::proofs::Texts::timed_turn, crate::proofs::Texts::pairs_next, crate::proofs::Texts::pairs_none))]
fn push_stamps(
    alloc: Global,
    text: &mut Vec<u8>,
    scalars: &[Scalar],
    stamps: &[Option<u32>],
) -> Result<(), NoMemory>
    ensures { OnOk result (text.new.items ≡ text.old.items ++ spec.for_each spec.stamp_line (spec.timed scalars.now) stamps.now) }
{
    let mut next: usize = 0;
    for scalar in scalars {
        if scalar.stamp.is_some() {
            if next >= stamps.len() {
                return Ok(());
            }
            push_stamp(alloc, text, scalar, stamps[next])?;
            next += 1;
        }
    }
    Ok(())
}

/// Adds the line of an output.
fn push_output(alloc: Global, text: &mut Vec<u8>, index: u32, word: u16) -> Result<(), NoMemory>
    ensures { OnOk result (text.new.items ≡ text.old.items
        ++ report.line (codes "out " ++ decimal index ++ codes " " ++ decimal word)) }
{
    push_number(alloc, text, b"out ", index)?;
    push_number(alloc, text, b" ", u32::from(word))?;
    push_text(text, b"\n")
}

/// Adds the lines of the outputs.
#[tactic(auto, using(crate::proofs::Texts::outputs_turn))]
fn push_outputs(alloc: Global, text: &mut Vec<u8>, outputs: &[u16]) -> Result<(), NoMemory>
    ensures { OnOk result (text.new.items ≡ text.old.items ++ spec.outputs_text outputs.now) }
{
    if outputs.len() > 65_536 {
        return Err(NoMemory);
    }
    push_number(alloc, text, b"outs ", outputs.len() as u32)?;
    push_text(text, b"\n")?;
    for at in 0..outputs.len() {
        push_output(alloc, text, at as u32, outputs[at])?;
    }
    Ok(())
}

/// What stands in a state.
fn contents(alloc: Global, core: &Core, state: &State) -> Result<Vec<u8>, NoMemory>
    ensures { IfOk result (λ text. text.items ≡ spec.contents core.now state.now) }
{
    let places = Places::new(alloc, core)?;
    let scalars = scalars(alloc, core)?;
    let values = values_of(alloc, state)?;
    let mut text = Vec::new(alloc);
    push_number(alloc, &mut text, b"marks ", state.marks)?;
    push_text(&mut text, b"\n")?;
    push_sets(
        alloc,
        &mut text,
        &places,
        state,
        scalars.as_slice(),
        values.as_slice(),
    )?;
    push_stamps(
        alloc,
        &mut text,
        scalars.as_slice(),
        state.stamps.as_slice(),
    )?;
    push_outputs(alloc, &mut text, state.outputs.as_slice())?;
    Ok(text)
}

/// Adds how a run ended by itself.
fn push_end(text: &mut Vec<u8>, kind: EndKind) -> Result<(), NoMemory>
    ensures { OnOk result (text.new.items ≡ text.old.items ++ report.line (codes "end " ++ report.end_word kind)) }
{
    push_text(text, b"end ")?;
    match kind {
        EndKind::Done => push_text(text, b"done")?,
        EndKind::Power => push_text(text, b"power")?,
        EndKind::StackFull => push_text(text, b"stack")?,
        EndKind::BlockFull => push_text(text, b"block")?,
        EndKind::OutputFull => push_text(text, b"output")?,
        EndKind::Wild { address } => push_wild(text, address)?,
    }
    push_text(text, b"\n")
}

fn push_wild(text: &mut Vec<u8>, address: u16) -> Result<(), NoMemory>
    ensures { OnOk result (text.new.items ≡ text.old.items ++ codes "wild " ++ hexadecimal.hex4 address) }
{
    push_text(text, b"wild ")?;
    push_text(text, &hex4(address))
}

/// The text of a rule of undefined behaviour and the line where it is broken.
fn undefined_text(alloc: Global, core: &Core, rule: u8, node: u32) -> Result<Vec<u8>, NoMemory>
    ensures { IfOk result (λ text. text.items ≡ spec.undefined_text core.now rule node) }
{
    let mut text = Vec::new(alloc);
    push_number(alloc, &mut text, b"end undefined U", u32::from(rule))?;
    push_number(alloc, &mut text, b" line ", line_of(alloc, core, node)?)?;
    push_text(&mut text, b"\n")?;
    Ok(text)
}

/// The lines of a state of a program: the marks made, the scalars of its variables, its stamps and outputs, and how it
/// stands; or why there is no such state.
///
/// # Errors
/// `NoMemory` if memory runs out.
#[tactic(auto, unfolding(crate::specs::StateText::state_text))]
pub fn state_text(alloc: Global, state: &CState, core: &Core) -> Result<Vec<u8>, NoMemory>
    ensures { IfOk result (λ text. text.items ≡ spec.state_text core.now state.now) }
{
    match state {
        CState::Live { state } => {
            let mut text = contents(alloc, core, state)?;
            push_text(&mut text, b"end live\n")?;
            Ok(text)
        }
        CState::Ended { kind, state } => {
            let mut text = contents(alloc, core, state)?;
            push_end(&mut text, *kind)?;
            Ok(text)
        }
        CState::NeedsReading => {
            let mut text = Vec::new(alloc);
            push_text(&mut text, b"end reading\n")?;
            Ok(text)
        }
        CState::Undefined { rule, node } => undefined_text(alloc, core, *rule, *node),
    }
}
