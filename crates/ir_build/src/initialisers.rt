//! The steps of declarations.

ghost use Rattle.std.specs.Prelude.{◌≡◌, ◌+◌, ◌++◌, length, IfOk, OnOk};
ghost use Rattle.ir_gen.specs.Body as spec;

use crate::emit::put;
use crate::stmt_parts::taken_steps;
use base16::{Kind, NoMemory, Sequence};
use core_tree::{Init, Slot, Struct};
use ir::{Base, Keep, Operand, Step, StepKind, Target};

/// The kind of the scalar at an offset.
#[tactic(auto, using(crate::proofs::StmtTurns::kind_turn))]
fn kind_in(offset: u16, slots: &[Slot]) -> Kind
    ensures { result ≡ spec.kind_in offset slots.now }
{
    for slot in slots {
        if slot.offset == offset {
            return slot.kind;
        }
    }
    Kind::Int
}

/// The kind of a scalar of a local.
#[tactic(auto, using(crate::proofs::StmtTurns::kind_past, crate::proofs::StmtTurns::kind_there))]
fn local_kind(objects: &[Sequence<Slot>], local: u32, offset: u16) -> Kind
    ensures { result ≡ spec.local_kind objects.now local offset }
{
    let at = local as usize;
    if at < objects.len() {
        kind_in(offset, objects[at].as_slice())
    } else {
        Kind::Int
    }
}

/// Zero in a scalar of a kind.
fn zero_of(kind: Kind) -> Operand
    ensures { result ≡ spec.zero_of kind }
{
    match kind {
        Kind::Pointer => Operand::Null,
        Kind::Char => Operand::Constant(0),
        Kind::Int => Operand::Constant(0),
        Kind::UInt => Operand::Constant(0),
    }
}

/// A store to a scalar of a local that leaves nothing.
fn init_step(local: u32, offset: u16, kind: Kind, marked: bool, value: Operand) -> StepKind
    ensures { result ≡ spec.init_step local offset kind marked value }
{
    if marked {
        StepKind::Store {
            depth: 0,
            target: Target::Known {
                of: Base::Local(local),
                offset,
            },
            kind,
            value,
            keep: Keep::Nothing,
        }
    } else {
        StepKind::StoreLocal {
            depth: 0,
            local,
            offset,
            kind,
            value,
            keep: Keep::Nothing,
        }
    }
}

/// The steps of a store of an initialiser.
fn init_steps(
    code: &mut Sequence<Step>,
    structs: &[Struct],
    objects: &[Sequence<Slot>],
    node: u32,
    local: u32,
    init: &Init,
) -> Result<(), NoMemory>
    ensures steps { OnOk result (code.new
        ≡ code.old
        ++ (spec.init_value structs.now objects.now node local init.now.offset init.now.marked init.now.value).steps
        (length code.old)) }
    ensures size { OnOk result (length code.new
        ≡ length code.old
        + (spec.init_value structs.now objects.now node local init.now.offset init.now.marked init.now.value).size) }
{
    let kind = local_kind(objects, local, init.offset);
    match &init.value {
        None => {
            let step = init_step(local, init.offset, kind, init.marked, zero_of(kind));
            put(code, node, step)?;
            Ok(())
        }
        Some(value) => {
            let taken = Operand::Temporary;
            let step = init_step(local, init.offset, kind, init.marked, taken);
            taken_steps(code, structs, node, step, value)?;
            Ok(())
        }
    }
}

/// The steps of the stores of an initialiser.
#[tactic(auto, using(crate::proofs::StmtTurns::inits_steps_turn, crate::proofs::StmtTurns::inits_size_turn))]
fn inits_steps(
    code: &mut Sequence<Step>,
    structs: &[Struct],
    objects: &[Sequence<Slot>],
    node: u32,
    local: u32,
    init: &[Init],
) -> Result<(), NoMemory>
    ensures steps { OnOk result (code.new
        ≡ code.old ++ (spec.init_parts structs.now objects.now node local init.now).steps (length code.old)) }
    ensures size { OnOk result (length code.new
        ≡ length code.old + (spec.init_parts structs.now objects.now node local init.now).size) }
{
    for one in init {
        init_steps(code, structs, objects, node, local, one)?;
    }
    Ok(())
}

/// The steps of a declaration; without initialiser the scalars are undefined.
#[tactic(auto, using(crate::proofs::StmtTurns::declare_none_steps, crate::proofs::StmtTurns::declare_some_steps, crate::proofs::StmtTurns::declare_none, crate::proofs::StmtTurns::declare_some))]
pub fn declare_steps(
    code: &mut Sequence<Step>,
    structs: &[Struct],
    objects: &[Sequence<Slot>],
    node: u32,
    local: u32,
    init: &[Init],
) -> Result<(), NoMemory>
    ensures steps { OnOk result (code.new
        ≡ code.old ++ (spec.declare_part structs.now objects.now node local init.now).steps (length code.old)) }
    ensures size { OnOk result (length code.new
        ≡ length code.old + (spec.declare_part structs.now objects.now node local init.now).size) }
{
    if init.len() == 0 {
        put(code, node, StepKind::Undefine { local })?;
        return Ok(());
    }
    inits_steps(code, structs, objects, node, local, init)?;
    Ok(())
}
