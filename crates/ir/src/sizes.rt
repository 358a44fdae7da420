ghost use Rattle.std.specs.Prelude.{◌≡◌, ◌≤◌};
ghost use Rattle.ir.specs.Table as table;

use crate::form::{Base, Keep, Operand, Operation, Step, StepKind, Target, Test};
use base16::{BinaryOp, IntType, Kind, UnaryOp};

// The bytes of code of the parts of a step, and of the whole.

fn is_comparison(op: BinaryOp) -> bool
    ensures { result ≡ table.is_comparison op }
{
    match op {
        BinaryOp::Less
        | BinaryOp::Greater
        | BinaryOp::LessEq
        | BinaryOp::GreaterEq
        | BinaryOp::Equal
        | BinaryOp::NotEqual => true,
        BinaryOp::Add
        | BinaryOp::Sub
        | BinaryOp::Mul
        | BinaryOp::Div
        | BinaryOp::Rem
        | BinaryOp::Shl
        | BinaryOp::Shr
        | BinaryOp::And
        | BinaryOp::Xor
        | BinaryOp::Or => false,
    }
}

/// Whether the core generates an immediate, so that it takes no word of its own.
fn is_generated(value: i64) -> bool
    ensures { result ≡ table.is_generated value }
{
    value == -1 || value == 0 || value == 1 || value == 2 || value == 4 || value == 8
}

/// An operand is brought into a register.
fn bring(value: Operand) -> u32
    ensures is { result ≡ table.bring value }
    ensures few { result ≤ 4 }
{
    match value {
        Operand::Constant(n) => { if is_generated(n) { 2 } else { 4 } }
        Operand::Null => 2,
        Operand::Temporary | Operand::Scalar { .. } => 4,
    }
}

/// An operand becomes a temporary; the topmost temporary is one already.
fn place(value: Operand) -> u32
    ensures { result ≡ table.place value }
{
    match value {
        Operand::Temporary => 0,
        Operand::Constant(_) | Operand::Null | Operand::Scalar { .. } => bring(value) + 4,
    }
}

/// The address of a known scalar is brought into a register.
fn address_bytes(of: Base) -> u32
    ensures is { result ≡ table.address_bytes of }
    ensures few { result ≤ 6 }
{
    match of {
        Base::Local(_) => 6,
        Base::Global(_) => 4,
    }
}

fn target_bytes(target: Target) -> u32
    ensures is { result ≡ table.target_bytes target }
    ensures few { result ≤ 6 }
{
    match target {
        Target::Temporary => 4,
        Target::Known { of, .. } => address_bytes(of),
    }
}

/// What is computed of two registers comes into one of them.
fn operator_bytes(op: BinaryOp) -> u32
    ensures is { result ≡ table.operator_bytes op }
    ensures few { result ≤ 8 }
{
    match op {
        BinaryOp::Add | BinaryOp::Sub | BinaryOp::And | BinaryOp::Xor | BinaryOp::Or => 2,
        BinaryOp::Mul | BinaryOp::Div | BinaryOp::Rem | BinaryOp::Shl | BinaryOp::Shr => 4,
        BinaryOp::Less
        | BinaryOp::Greater
        | BinaryOp::LessEq
        | BinaryOp::GreaterEq
        | BinaryOp::Equal
        | BinaryOp::NotEqual => 8,
    }
}

fn operation_bytes(operation: Operation) -> u32
    ensures is { result ≡ table.operation_bytes operation }
    ensures few { result ≤ 10 }
{
    match operation {
        Operation::Integers { op, .. } => operator_bytes(op),
        Operation::PointerPlus { .. } | Operation::Difference { .. } => 10,
        Operation::ComparePointers { .. } => 8,
    }
}

fn convert_bytes(to: IntType, value: Operand) -> u32
    ensures { result ≡ table.convert_bytes to value }
{
    match to {
        IntType::Char => bring(value) + 6,
        IntType::Int | IntType::UInt => place(value),
    }
}

fn unary_bytes(op: UnaryOp, value: Operand) -> u32
    ensures { result ≡ table.unary_step op value }
{
    match op {
        UnaryOp::Plus => place(value),
        UnaryOp::Minus => bring(value) + 8,
        UnaryOp::Complement => bring(value) + 6,
        UnaryOp::Not => bring(value) + 12,
    }
}

/// What a store leaves becomes a temporary.
fn keep_bytes(kind: Kind, keep: Keep) -> u32
    ensures is { result ≡ table.keep_bytes kind keep }
    ensures few { result ≤ 8 }
{
    match keep {
        Keep::Nothing => 0,
        Keep::Stored => match kind {
            Kind::Char => 6,
            Kind::Int | Kind::UInt | Kind::Pointer => 4,
        },
        Keep::Before => 8,
    }
}

/// A test sets the flags.
fn flag_bytes(operation: Operation) -> u32
    ensures is { result ≡ table.flag_bytes operation }
    ensures few { result ≤ 12 }
{
    match operation {
        Operation::Integers { op, .. } => {
            if is_comparison(op) {
                2
            } else {
                operator_bytes(op) + 2
            }
        }
        Operation::ComparePointers { .. } => 2,
        Operation::PointerPlus { .. } | Operation::Difference { .. } => 12,
    }
}

fn test_bytes(test: Test) -> u32
    ensures { result ≡ table.test_bytes test }
{
    match test {
        Test::Value(value) => bring(value) + 2,
        Test::Computed {
            operation,
            left,
            right,
        } => bring(left) + bring(right) + flag_bytes(operation),
    }
}

/// The bytes of the code of a step, at most; at most 393,218, the entry of a function of 65,535 parameters.
pub fn size(step: &Step) -> u32
    ensures { result ≡ table.size step.now.kind }
{
    match step.kind {
        StepKind::Put { value, .. } | StepKind::Follow { value, .. } => place(value),
        StepKind::Nothing { .. }
        | StepKind::Drop { .. }
        | StepKind::PointTo { .. }
        | StepKind::Undefine { .. } => 0,
        StepKind::Beside { operation, .. } => operation_bytes(operation) + 12,
        StepKind::Convert { to, value, .. } => convert_bytes(to, value),
        StepKind::Unary { op, value, .. } => unary_bytes(op, value),
        StepKind::Binary {
            operation,
            left,
            right,
            ..
        } => bring(left) + bring(right) + operation_bytes(operation) + 4,
        StepKind::Truth { value, .. } => bring(value) + 12,
        StepKind::Address { of, .. } => address_bytes(of) + 4,
        StepKind::Member { .. } | StepKind::Sense { .. } => 12,
        StepKind::Element { index, .. } => bring(index) + 18,
        StepKind::Sum { left, right, .. } => bring(left) + bring(right) + 14,
        StepKind::Load { .. } | StepKind::Peek { .. } | StepKind::Call { .. } => 10,
        StepKind::Store {
            target,
            kind,
            value,
            keep,
            ..
        } => target_bytes(target) + bring(value) + 4 + keep_bytes(kind, keep),
        StepKind::StoreLocal {
            kind,
            value,
            keep,
            ..
        } => bring(value) + 4 + keep_bytes(kind, keep),
        StepKind::Update {
            target,
            kind,
            operation,
            value,
            keep,
            ..
        } => {
            let twice = target_bytes(target) * 2;
            twice + bring(value) + operation_bytes(operation) + 8 + keep_bytes(kind, keep)
        }
        StepKind::UpdateLocal {
            kind,
            operation,
            value,
            keep,
            ..
        } => bring(value) + operation_bytes(operation) + 10 + keep_bytes(kind, keep),
        StepKind::Jump { .. } | StepKind::Turn | StepKind::Checkpoint { .. } => 4,
        StepKind::Branch { test, .. } => test_bytes(test) + 6,
        StepKind::Case { .. } => 14,
        StepKind::Result { kept, .. } => { if kept { 4 } else { 0 } }
        StepKind::Enter { params } => 8 + 6 * (params as u32),
        StepKind::Return { value, .. } => bring(value) + 8,
        StepKind::ReturnNothing => 8,
        StepKind::Emit { value, .. } => bring(value) + 4,
        StepKind::Stamp { target, value, .. } => target_bytes(target) + bring(value) + 18,
        StepKind::Timely { target, .. } => target_bytes(target) + 34,
        StepKind::Open { .. } | StepKind::Check { .. } | StepKind::Close { .. } => 20,
    }
}
