//! The bytes of steps, worked out by hand from the table of steps.

use base16::{BinaryOp, IntType, Kind, UnaryOp};
use ir::{Base, Keep, Operand, Operation, Step, StepKind, Target, Test, size};

const fn int_operator(op: BinaryOp) -> Operation {
    Operation::Integers {
        op,
        at: IntType::Int,
        own: IntType::Int,
    }
}

const SCALAR: Operand = Operand::Scalar {
    of: Base::Global(0),
    offset: 0,
    kind: Kind::Int,
};

const fn update(keep: Keep) -> StepKind {
    StepKind::Update {
        depth: 0,
        target: Target::Known {
            of: Base::Local(1),
            offset: 2,
        },
        kind: Kind::Char,
        operation: int_operator(BinaryOp::Mul),
        value: Operand::Constant(3),
        keep,
    }
}

fn bytes(kind: StepKind) -> u32 {
    size(&Step { node: 0, kind })
}

/// Steps that move one value.
#[test]
fn moves_take_the_bytes_of_their_operands(rt: HostRuntime) {
    let value = Operand::Constant(-3);
    assert_eq!(rt; bytes(StepKind::Put { depth: 0, value }), 8);
    let value = Operand::Constant(8);
    assert_eq!(rt; bytes(StepKind::Put { depth: 0, value }), 6);
    let value = Operand::Temporary;
    assert_eq!(rt; bytes(StepKind::Follow { depth: 0, value }), 0);
    let to = IntType::Char;
    assert_eq!(rt;
        bytes(StepKind::Convert {
            depth: 0,
            to,
            value
        }),
        10
    );
    let op = UnaryOp::Not;
    assert_eq!(rt;
        bytes(StepKind::Unary {
            depth: 0,
            op,
            at: IntType::Int,
            value: SCALAR
        }),
        16
    );
    assert_eq!(rt; bytes(StepKind::Enter { params: 2 }), 20);
    assert_eq!(rt;
        bytes(StepKind::Return {
            depth: 0,
            value: Operand::Null
        }),
        10
    );
}

/// Operations, and branches on them.
#[test]
fn operations_take_the_bytes_of_their_operators(rt: HostRuntime) {
    let left = SCALAR;
    let right = Operand::Constant(1);
    let operation = int_operator(BinaryOp::LessEq);
    assert_eq!(rt;
        bytes(StepKind::Binary {
            depth: 0,
            operation,
            left,
            right
        }),
        18
    );
    let test = Test::Computed {
        operation,
        left,
        right,
    };
    let branch = StepKind::Branch {
        depth: 0,
        test,
        of: IntType::Int,
        when: true,
        to: 0,
    };
    assert_eq!(rt; bytes(branch), 14);
    let operation = Operation::Difference { size: 6 };
    assert_eq!(rt;
        bytes(StepKind::Beside {
            depth: 0,
            operation
        }),
        22
    );
    let test = Test::Computed {
        operation,
        left,
        right,
    };
    let branch = StepKind::Branch {
        depth: 0,
        test,
        of: IntType::Int,
        when: true,
        to: 0,
    };
    assert_eq!(rt; bytes(branch), 24);
}

/// Stores and updates, by what they leave.
#[test]
fn stores_take_the_bytes_of_what_they_leave(rt: HostRuntime) {
    assert_eq!(rt; bytes(update(Keep::Nothing)), 28);
    assert_eq!(rt; bytes(update(Keep::Stored)), 34);
    assert_eq!(rt; bytes(update(Keep::Before)), 36);
    let store = StepKind::Store {
        depth: 0,
        target: Target::Temporary,
        kind: Kind::Int,
        value: Operand::Temporary,
        keep: Keep::Stored,
    };
    assert_eq!(rt; bytes(store), 16);
}
