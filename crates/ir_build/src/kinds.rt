//! What steps are made of: operands and operations.

ghost use Rattle.std.specs.Prelude.{◌≡◌, ◌+◌, ◌++◌, length, IfOk, OnOk};
ghost use Rattle.core_tree.specs.Layout as layout;
ghost use Rattle.c_meaning.specs.Meaning.{is_sub};
ghost use Rattle.ir.specs.declared.form.Operand.TheVariants as operand;
ghost use Rattle.ir.specs.declared.form.StepKind.TheVariants as step;
ghost use Rattle.ir_gen.specs.Code as spec;
ghost use Rattle.ir_build.specs.Emitting.{behind, local_end, one_part, part_in, update_end};

use crate::emit::{further, put};
use crate::parts::{Part, target_size};
use base16::{BinaryOp, IntType, Kind, NoMemory, Sequence};
use core_tree::{Struct, Ty, int_type_of, is_pointer, size_of};
use ir::{Base, Keep, Operand, Operation, Step, StepKind, Target};

/// A constant; one of a pointer type is the null pointer.
pub fn constant(pointer: bool, value: i64) -> Operand
    ensures { result ≡ spec.constant pointer value }
{
    if pointer {
        Operand::Null
    } else {
        Operand::Constant(value)
    }
}

/// Gives a number.
pub fn bit(depth: u32, value: i64) -> StepKind
    ensures { result ≡ step.Put depth (operand.Constant value) }
{
    StepKind::Put {
        depth,
        value: Operand::Constant(value),
    }
}

/// Computes something of the two topmost temporaries.
pub fn binary(depth: u32, operation: Operation) -> StepKind
    ensures { result ≡ step.Binary depth operation operand.Temporary operand.Temporary }
{
    StepKind::Binary {
        depth,
        operation,
        left: Operand::Temporary,
        right: Operand::Temporary,
    }
}

/// A pointer of a type plus or minus an integer, whose operands have types.
pub fn pointer_plus(structs: &[Struct], minus: bool, ty: &Ty, left: &Ty, right: &Ty) -> Operation
    ensures { result ≡ spec.pointer_plus structs.now minus ty.now left.now right.now }
{
    Operation::PointerPlus {
        minus,
        size: target_size(structs, ty),
        left: Some(int_type_of(left)),
        right: Some(int_type_of(right)),
        swapped: !is_pointer(left),
    }
}

/// The place to which the sum of two values of types points, whose own type is given.
pub fn sum_step(structs: &[Struct], ty: &Ty, left: &Ty, right: &Ty, depth: u32) -> StepKind
    ensures { result ≡ step.Sum depth (layout.stride structs.now ty.now) (layout.int_type_of left.now)
        (layout.int_type_of right.now) (spec.swapped left.now) operand.Temporary operand.Temporary }
{
    StepKind::Sum {
        depth,
        size: size_of(structs, ty),
        left_type: int_type_of(left),
        right_type: int_type_of(right),
        swapped: !is_pointer(left),
        left: Operand::Temporary,
        right: Operand::Temporary,
    }
}

/// Whether an operator subtracts.
fn subtracts(op: BinaryOp) -> bool
    ensures { result ≡ is_sub op }
{
    match op {
        BinaryOp::Sub => true,
        _ => false,
    }
}

/// What an update computes, of a value whose type is `own` and a scalar of a type.
pub fn update_operation(
    structs: &[Struct],
    op: BinaryOp,
    at: Option<IntType>,
    own: IntType,
    ty: &Ty,
) -> Operation
    ensures { result ≡ spec.update_operation op at own (layout.stride structs.now (layout.target_of ty.now)) }
{
    match at {
        Some(at) => Operation::Integers { op, at, own },
        None => Operation::PointerPlus {
            minus: subtracts(op),
            size: target_size(structs, ty),
            left: None,
            right: Some(own),
            swapped: false,
        },
    }
}

/// A store with a mark to the place below the value that is stored.
pub fn store_step(kind: Kind, keep: Keep, depth: u32) -> StepKind
    ensures { result ≡ spec.store_step kind keep depth }
{
    StepKind::Store {
        depth,
        target: Target::Temporary,
        kind,
        value: Operand::Temporary,
        keep,
    }
}

/// An offset that a step can name.
fn offset_of_part(part: Part) -> Result<u16, NoMemory>
    ensures { IfOk result (λ offset. offset ≡ part.offset) }
{
    if part.offset > 65_535 {
        return Err(NoMemory);
    }
    Ok(part.offset as u16)
}

/// The scalar of a kind that a part of a local is.
pub fn scalar_of(part: Part, kind: Kind) -> Result<Operand, NoMemory>
    ensures { IfOk result (λ operand. operand ≡ spec.scalar_of (one_part part) kind) }
{
    Ok(Operand::Scalar {
        of: Base::Local(part.local),
        offset: offset_of_part(part)?,
        kind,
    })
}

/// The step of a store without a mark, if it goes to a part of a local.
pub fn put_local(
    code: &mut Sequence<Step>,
    node: u32,
    part: Option<Part>,
    kind: Kind,
    keep: Keep,
    depth: u32,
) -> Result<(), NoMemory>
    ensures steps { OnOk result (code.new ≡ behind code.old (spec.store_local node (part_in part) kind keep) depth) }
    ensures size { OnOk result (length code.new ≡ length code.old + (spec.store_local node (part_in part) kind keep).size) }
{
    match part {
        None => Ok(()),
        Some(part) => {
            let offset = offset_of_part(part)?;
            let step = StepKind::StoreLocal {
                depth,
                local: part.local,
                offset,
                kind,
                value: Operand::Temporary,
                keep,
            };
            put(code, node, step)?;
            Ok(())
        }
    }
}

/// The last steps of an update with a mark: what is computed, and the store.
pub fn put_update(
    code: &mut Sequence<Step>,
    node: u32,
    kind: Kind,
    operation: Operation,
    old: bool,
    depth: u32,
) -> Result<(), NoMemory>
    ensures steps { OnOk result (code.new ≡ code.old ++ update_end node kind operation old depth) }
    ensures size { OnOk result (length code.new ≡ length code.old + 2) }
{
    let above = further(depth, 1)?;
    if old {
        let step = StepKind::Beside {
            depth: above,
            operation,
        };
        put(code, node, step)?;
        put(code, node, store_step(kind, Keep::Before, depth))?;
        Ok(())
    } else {
        put(code, node, binary(above, operation))?;
        put(code, node, store_step(kind, Keep::Stored, depth))?;
        Ok(())
    }
}

/// The last steps of an update without a mark: what is computed, and the store.
pub fn put_local_update(
    code: &mut Sequence<Step>,
    node: u32,
    part: Part,
    kind: Kind,
    operation: Operation,
    old: bool,
    depth: u32,
) -> Result<(), NoMemory>
    ensures steps { OnOk result (code.new ≡ code.old ++ local_end node (one_part part) kind operation old depth) }
    ensures size { OnOk result (length code.new ≡ length code.old + 2) }
{
    if old {
        put(code, node, StepKind::Beside { depth, operation })?;
        put_local(code, node, Some(part), kind, Keep::Before, depth)?;
        Ok(())
    } else {
        put(code, node, binary(depth, operation))?;
        put_local(code, node, Some(part), kind, Keep::Stored, depth)?;
        Ok(())
    }
}
