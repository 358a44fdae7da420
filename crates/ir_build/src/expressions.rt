//! The steps of expressions and places.

ghost use Rattle.std.specs.Prelude.{◌≡◌, ◌+◌, ◌++◌, length, map, true, OnOk};
ghost use Rattle.core_tree.specs.Layout as layout;
ghost use Rattle.ir_gen.specs.Code as spec;
ghost use Rattle.ir_build.specs.Emitting.{above_one, and_behind, behind, call_end, coded, or_behind, part_in};
ghost use Rattle.ir_build.specs.Emitting.{then_one, update_behind};

use crate::choices::{put_and, put_branch, put_or, put_truth, truth};
use crate::emit::{further, put};
use crate::kinds::{
    binary, constant, pointer_plus, put_local, put_local_update, put_update, scalar_of, store_step,
    sum_step, update_operation,
};
use crate::parts::{Part, member_offset, part_of, target_size};
use base16::{IntType, Kind, NoMemory, Sequence};
use core_tree::{
    Expr, ExprKind, Place, PlaceKind, Struct, int_type_of, is_pointer, kind_of, size_of,
};
use ir::{Base, Keep, Operand, Operation, Step, StepKind};

/// The steps of an expression, whose value comes to a depth.
#[cycle(expr)]
#[tactic(auto, using(crate::proofs::Updates::marked_steps, crate::proofs::Updates::marked_size, crate::proofs::Updates::unmarked_steps, crate::proofs::Updates::unmarked_size))]
pub fn expr_steps(
    code: &mut Sequence<Step>,
    structs: &[Struct],
    expr: &Expr,
    depth: u32,
) -> Result<(), NoMemory>
    ensures steps { OnOk result (code.new ≡ behind code.old (spec.expr structs.now expr.now) depth) }
    ensures size { OnOk result (length code.new ≡ length code.old + (spec.expr structs.now expr.now).size) }
{
    let node = expr.node;
    match &expr.kind {
        ExprKind::Constant(value) => {
            let value = constant(is_pointer(&expr.ty), *value);
            put(code, node, StepKind::Put { depth, value })?;
            Ok(())
        }
        ExprKind::Sense(channel) => {
            let channel = *channel;
            put(code, node, StepKind::Sense { depth, channel })?;
            Ok(())
        }
        ExprKind::Checkpoint => {
            put(code, node, StepKind::Checkpoint { depth })?;
            Ok(())
        }
        ExprKind::Read(place) => {
            let kind = kind_of(&expr.ty);
            let step = StepKind::Load { depth, kind };
            place_then(code, structs, node, place.get(), step, depth)?;
            Ok(())
        }
        ExprKind::Address(place) => {
            let step = StepKind::PointTo { depth };
            place_then(code, structs, node, place.get(), step, depth)?;
            Ok(())
        }
        ExprKind::Convert(of) => {
            let step = StepKind::Convert {
                depth,
                to: int_type_of(&expr.ty),
                value: Operand::Temporary,
            };
            expr_then(code, structs, node, of.get(), step, depth)?;
            Ok(())
        }
        ExprKind::Unary { op, of } => {
            let of = of.get();
            let step = StepKind::Unary {
                depth,
                op: *op,
                at: int_type_of(&of.ty),
                value: Operand::Temporary,
            };
            expr_then(code, structs, node, of, step, depth)?;
            Ok(())
        }
        ExprKind::Emit(of) => {
            let value = Operand::Temporary;
            let step = StepKind::Emit { depth, value };
            expr_then(code, structs, node, of.get(), step, depth)?;
            Ok(())
        }
        ExprKind::Binary {
            op,
            at,
            left,
            right,
        } => {
            let right = right.get();
            let operation = Operation::Integers {
                op: *op,
                at: *at,
                own: int_type_of(&right.ty),
            };
            let step = binary(depth, operation);
            expr_steps(code, structs, left.get(), depth)?;
            above_then(code, structs, node, right, step, depth)?;
            Ok(())
        }
        ExprKind::PointerPlus { minus, left, right } => {
            let left = left.get();
            let right = right.get();
            let operation = pointer_plus(structs, *minus, &expr.ty, &left.ty, &right.ty);
            let step = binary(depth, operation);
            expr_steps(code, structs, left, depth)?;
            above_then(code, structs, node, right, step, depth)?;
            Ok(())
        }
        ExprKind::Difference { left, right } => {
            let left = left.get();
            let operation = Operation::Difference {
                size: target_size(structs, &left.ty),
            };
            let step = binary(depth, operation);
            expr_steps(code, structs, left, depth)?;
            above_then(code, structs, node, right.get(), step, depth)?;
            Ok(())
        }
        ExprKind::ComparePointers { op, left, right } => {
            let operation = Operation::ComparePointers { op: *op };
            let step = binary(depth, operation);
            expr_steps(code, structs, left.get(), depth)?;
            above_then(code, structs, node, right.get(), step, depth)?;
            Ok(())
        }
        ExprKind::Comma { left, right } => {
            let step = StepKind::Drop { depth };
            expr_then(code, structs, node, left.get(), step, depth)?;
            expr_steps(code, structs, right.get(), depth)?;
            Ok(())
        }
        ExprKind::And { left, right } => {
            let left = left.get();
            expr_steps(code, structs, left, depth)?;
            and_steps(
                code,
                structs,
                node,
                int_type_of(&left.ty),
                right.get(),
                depth,
            )?;
            Ok(())
        }
        ExprKind::Or { left, right } => {
            let left = left.get();
            expr_steps(code, structs, left, depth)?;
            or_steps(
                code,
                structs,
                node,
                int_type_of(&left.ty),
                right.get(),
                depth,
            )?;
            Ok(())
        }
        ExprKind::Conditional { test, yes, no } => {
            let test = test.get();
            let no = no.get();
            let yes = yes.get();
            expr_steps(code, structs, test, depth)?;
            let end = put_branch(code, structs, node, int_type_of(&test.ty), yes, no, depth)?;
            expr_steps(code, structs, yes, depth)?;
            put(code, node, StepKind::Jump { to: end })?;
            expr_steps(code, structs, no, depth)?;
            Ok(())
        }
        ExprKind::Assign {
            place,
            value,
            marked: true,
        } => {
            let step = store_step(kind_of(&expr.ty), Keep::Stored, depth);
            place_steps(code, structs, place.get(), depth)?;
            above_then(code, structs, node, value.get(), step, depth)?;
            Ok(())
        }
        ExprKind::Assign {
            place,
            value,
            marked: false,
        } => {
            expr_steps(code, structs, value.get(), depth)?;
            let part = part_of(structs, place.get());
            put_local(code, node, part, kind_of(&expr.ty), Keep::Stored, depth)?;
            Ok(())
        }
        ExprKind::Update {
            op,
            at,
            place,
            value,
            old,
            marked: true,
        } => {
            let value = value.get();
            let place = place.get();
            let kind = kind_of(&expr.ty);
            let operation = update_operation(structs, *op, *at, int_type_of(&value.ty), &expr.ty);
            place_steps(code, structs, place, depth)?;
            marked_steps(code, structs, node, kind, operation, value, *old, depth)?;
            Ok(())
        }
        ExprKind::Update {
            op,
            at,
            place,
            value,
            old,
            marked: false,
        } => {
            let value = value.get();
            let part = part_of(structs, place.get());
            let kind = kind_of(&expr.ty);
            let operation = update_operation(structs, *op, *at, int_type_of(&value.ty), &expr.ty);
            local_steps(
                code, structs, node, part, kind, operation, value, *old, depth,
            )?;
            Ok(())
        }
        ExprKind::Call { function, args } => {
            let args = args.as_slice();
            args_steps(code, structs, args, depth)?;
            put_call(code, node, *function, args, depth)?;
            Ok(())
        }
    }
}

/// The steps of a call behind its arguments.
fn put_call(
    code: &mut Sequence<Step>,
    node: u32,
    function: u16,
    args: &[Expr],
    depth: u32,
) -> Result<(), NoMemory>
    ensures steps { OnOk result (code.new ≡ code.old ++ call_end node function (length args.now) depth) }
    ensures size { OnOk result (length code.new ≡ length code.old + 2) }
{
    if args.len() > 65_535 {
        return Err(NoMemory);
    }
    let step = StepKind::Call {
        depth,
        function,
        args: args.len() as u16,
    };
    put(code, node, step)?;
    put(code, node, StepKind::Result { depth, kept: true })?;
    Ok(())
}

/// The steps of a place, which comes to a depth.
#[cycle(expr)]
pub fn place_steps(
    code: &mut Sequence<Step>,
    structs: &[Struct],
    place: &Place,
    depth: u32,
) -> Result<(), NoMemory>
    ensures steps { OnOk result (code.new ≡ behind code.old (spec.place structs.now place.now).code depth) }
    ensures size { OnOk result (length code.new ≡ length code.old + (spec.place structs.now place.now).code.size) }
{
    let node = place.node;
    match &place.kind {
        PlaceKind::Local(number) => {
            let of = Base::Local(*number);
            put(
                code,
                node,
                StepKind::Address {
                    depth,
                    of,
                    offset: 0,
                },
            )?;
            Ok(())
        }
        PlaceKind::Global(number) => {
            let of = Base::Global(*number);
            put(
                code,
                node,
                StepKind::Address {
                    depth,
                    of,
                    offset: 0,
                },
            )?;
            Ok(())
        }
        PlaceKind::Deref(of) => {
            let value = Operand::Temporary;
            let step = StepKind::Follow { depth, value };
            expr_then(code, structs, node, of.get(), step, depth)?;
            Ok(())
        }
        PlaceKind::Member { of, tag, member } => {
            let offset = member_offset(structs, *tag, *member);
            let step = StepKind::Member { depth, offset };
            place_then(code, structs, node, of.get(), step, depth)?;
            Ok(())
        }
        PlaceKind::Element { of, index } => {
            let index = index.get();
            let step = StepKind::Element {
                depth,
                size: size_of(structs, &place.ty),
                own: int_type_of(&index.ty),
                index: Operand::Temporary,
            };
            place_steps(code, structs, of.get(), depth)?;
            above_then(code, structs, node, index, step, depth)?;
            Ok(())
        }
        PlaceKind::At { left, right } => {
            let left = left.get();
            let right = right.get();
            let step = sum_step(structs, &place.ty, &left.ty, &right.ty, depth);
            expr_steps(code, structs, left, depth)?;
            above_then(code, structs, node, right, step, depth)?;
            Ok(())
        }
    }
}

/// An expression, and a step.
#[cycle(expr)]
fn expr_then(
    code: &mut Sequence<Step>,
    structs: &[Struct],
    node: u32,
    of: &Expr,
    step: StepKind,
    depth: u32,
) -> Result<(), NoMemory>
    ensures steps { OnOk result (code.new ≡ behind code.old (then_one (spec.expr structs.now of.now) node step) depth) }
    ensures size { OnOk result (length code.new ≡ length code.old + ((spec.expr structs.now of.now).size + 1)) }
{
    expr_steps(code, structs, of, depth)?;
    put(code, node, step)?;
    Ok(())
}

/// A place, and a step.
#[cycle(expr)]
fn place_then(
    code: &mut Sequence<Step>,
    structs: &[Struct],
    node: u32,
    of: &Place,
    step: StepKind,
    depth: u32,
) -> Result<(), NoMemory>
    ensures steps { OnOk result (code.new ≡ behind code.old (then_one (spec.place structs.now of.now).code node step) depth) }
    ensures size { OnOk result (length code.new ≡ length code.old + ((spec.place structs.now of.now).code.size + 1)) }
{
    place_steps(code, structs, of, depth)?;
    put(code, node, step)?;
    Ok(())
}

/// An expression above a value, and a step that takes both.
#[cycle(expr)]
fn above_then(
    code: &mut Sequence<Step>,
    structs: &[Struct],
    node: u32,
    of: &Expr,
    step: StepKind,
    depth: u32,
) -> Result<(), NoMemory>
    ensures steps { OnOk result (code.new
        ≡ code.old ++ above_one (spec.expr structs.now of.now) node step (length code.old) depth) }
    ensures size { OnOk result (length code.new ≡ length code.old + ((spec.expr structs.now of.now).size + 1)) }
{
    let above = further(depth, 1)?;
    expr_steps(code, structs, of, above)?;
    put(code, node, step)?;
    Ok(())
}

/// The steps of `&&` behind its left side, which is of a type.
#[cycle(expr)]
fn and_steps(
    code: &mut Sequence<Step>,
    structs: &[Struct],
    node: u32,
    of: IntType,
    right: &Expr,
    depth: u32,
) -> Result<(), NoMemory>
    ensures steps { OnOk result (code.new ≡ code.old
        ++ and_behind node of (layout.int_type_of right.now.ty) (spec.expr structs.now right.now) (length code.old) depth) }
    ensures size { OnOk result (length code.new ≡ length code.old + ((spec.expr structs.now right.now).size + 4)) }
{
    let end = put_and(code, structs, node, of, right, depth)?;
    expr_steps(code, structs, right, depth)?;
    put_truth(code, node, int_type_of(&right.ty), end, depth)?;
    Ok(())
}

/// The steps of `||` behind its left side, which is of a type.
#[cycle(expr)]
fn or_steps(
    code: &mut Sequence<Step>,
    structs: &[Struct],
    node: u32,
    of: IntType,
    right: &Expr,
    depth: u32,
) -> Result<(), NoMemory>
    ensures steps { OnOk result (code.new ≡ code.old
        ++ or_behind node of (layout.int_type_of right.now.ty) (spec.expr structs.now right.now) (length code.old) depth) }
    ensures size { OnOk result (length code.new ≡ length code.old + ((spec.expr structs.now right.now).size + 4)) }
{
    put_or(code, structs, node, of, right, depth)?;
    expr_steps(code, structs, right, depth)?;
    put(code, node, truth(int_type_of(&right.ty), depth))?;
    Ok(())
}

/// The steps of an update with a mark behind its place: the old value above that, the other value, and the store.
#[cycle(expr)]
fn marked_steps(
    code: &mut Sequence<Step>,
    structs: &[Struct],
    node: u32,
    kind: Kind,
    operation: Operation,
    value: &Expr,
    old: bool,
    depth: u32,
) -> Result<(), NoMemory>
    ensures steps { OnOk result (code.new ≡ code.old
        ++ update_behind node kind operation (spec.expr structs.now value.now) old (length code.old) depth) }
    ensures size { OnOk result (length code.new ≡ length code.old + ((spec.expr structs.now value.now).size + 3)) }
{
    put(code, node, StepKind::Peek { depth, kind })?;
    expr_steps(code, structs, value, further(depth, 2)?)?;
    put_update(code, node, kind, operation, old, depth)?;
    Ok(())
}

/// The steps of an update without a mark, of a part of a local.
#[cycle(expr)]
#[tactic(auto, using(crate::proofs::Updates::local_steps, crate::proofs::Updates::local_size))]
fn local_steps(
    code: &mut Sequence<Step>,
    structs: &[Struct],
    node: u32,
    part: Option<Part>,
    kind: Kind,
    operation: Operation,
    value: &Expr,
    old: bool,
    depth: u32,
) -> Result<(), NoMemory>
    ensures steps { OnOk result (code.new
        ≡ behind code.old (spec.update_local node (part_in part) kind operation (spec.expr structs.now value.now) old) depth) }
    ensures size { OnOk result (length code.new
        ≡ length code.old + (spec.update_local node (part_in part) kind operation (spec.expr structs.now value.now) old).size) }
{
    match part {
        None => Ok(()),
        Some(part) => {
            put(
                code,
                node,
                StepKind::Put {
                    depth,
                    value: scalar_of(part, kind)?,
                },
            )?;
            expr_steps(code, structs, value, further(depth, 1)?)?;
            put_local_update(code, node, part, kind, operation, old, depth)?;
            Ok(())
        }
    }
}

/// The steps of arguments, above one another.
#[cycle(expr)]
#[tactic(auto, using(crate::proofs::CodeSizes::args_turn, crate::proofs::Updates::args_steps_turn))]
fn args_steps(
    code: &mut Sequence<Step>,
    structs: &[Struct],
    args: &[Expr],
    depth: u32,
) -> Result<(), NoMemory>
    ensures steps { OnOk result (code.new ≡ behind code.old (spec.args_code (map (coded structs.now) args.now)) depth) }
    ensures size { OnOk result (length code.new ≡ length code.old + (spec.args_code (map (coded structs.now) args.now)).size) }
{
    let mut at = depth;
    for arg in args {
        expr_steps(code, structs, arg, at)?;
        at = further(at, 1)?;
    }
    Ok(())
}
