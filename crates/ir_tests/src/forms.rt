//! Forms and how they run.

use base16::{BinaryOp, IntType, Kind, NoMemory, Sequence};
use c_values::{State, Value};
use core_tree::Slot;
use ir::{
    Base, Ir, IrFunction, IrGlobal, IrLocal, IrState, Keep, Operand, Operation, Step, StepKind,
    Target, Test,
};
use ir_run::ir_run;
use std::alloc::Global;

/// How a run is: its marks and the value of its first variable, where it has a state.
#[derive(Clone, Copy, Debug, PartialEq, Eq)]
enum Seen {
    Live(u32, Value),
    Ended(u32, Value),
    NeedsReading,
    Stuck,
}

/// The value of the first variable, undefined where there is none.
fn first_value(state: &State) -> Value {
    let Some(object) = state.globals.as_slice().get(0) else {
        return Value::Undefined;
    };
    match object.cells.find(0) {
        Some(cell) => cell.value,
        None => Value::Undefined,
    }
}

fn view_of(state: &IrState) -> Seen {
    match state {
        IrState::Live { state } => Seen::Live(state.marks, first_value(state)),
        IrState::Ended { state, .. } => Seen::Ended(state.marks, first_value(state)),
        IrState::NeedsReading => Seen::NeedsReading,
        IrState::Stuck => Seen::Stuck,
    }
}

/// One `int`.
fn int(alloc: Global) -> Result<Sequence<Slot>, NoMemory> {
    let mut slots = Sequence::new(alloc);
    slots.push(Slot {
        offset: 0,
        kind: Kind::Int,
    })?;
    Ok(slots)
}

/// A function with these steps and one `int`, which is its parameter if it has one.
fn function(alloc: Global, params: u32, kinds: &[StepKind]) -> Result<IrFunction, NoMemory> {
    let mut locals = Sequence::new(alloc);
    locals.push(IrLocal {
        offset: 0,
        scalars: int(alloc)?,
    })?;
    let mut steps = Sequence::new(alloc);
    for kind in kinds {
        steps.push(Step {
            node: 0,
            kind: *kind,
        })?;
    }
    Ok(IrFunction {
        frame: 4,
        params,
        locals,
        steps,
    })
}

/// A form with one variable, an `int` that is 0, and two functions: `twice`, and `main` with these steps.
fn form(alloc: Global, main: &[StepKind]) -> Result<Ir, NoMemory> {
    let mut init = Sequence::new(alloc);
    init.push(Value::Int(0))?;
    let mut globals = Sequence::new(alloc);
    globals.push(IrGlobal {
        address: 0x200,
        scalars: int(alloc)?,
        init,
        lifetime: None,
    })?;
    let mut functions = Sequence::new(alloc);
    functions.push(function(alloc, 1, &twice())?)?;
    functions.push(function(alloc, 0, main)?)?;
    Ok(Ir {
        functions,
        globals,
        tables: Sequence::new(alloc),
        main: 1,
    })
}

const fn int_operator(op: BinaryOp) -> Operation {
    Operation::Integers {
        op,
        at: IntType::Int,
        own: IntType::Int,
    }
}

const LOCAL: Operand = Operand::Scalar {
    of: Base::Local(0),
    offset: 0,
    kind: Kind::Int,
};

const GLOBAL: Operand = Operand::Scalar {
    of: Base::Global(0),
    offset: 0,
    kind: Kind::Int,
};

const TO_GLOBAL: Target = Target::Known {
    of: Base::Global(0),
    offset: 0,
};

/// `int twice(int x) { return x + x; }`
fn twice() -> [StepKind; 3] {
    [
        StepKind::Enter { params: 1 },
        StepKind::Binary {
            depth: 0,
            operation: int_operator(BinaryOp::Add),
            left: LOCAL,
            right: LOCAL,
        },
        StepKind::Return {
            depth: 0,
            value: Operand::Temporary,
        },
    ]
}

/// `int main(void) { int n = 3; g = twice(n); while (g > 0) g -= 4; return g; }`
fn counts_down() -> [StepKind; 11] {
    [
        StepKind::Enter { params: 0 },
        StepKind::StoreLocal {
            depth: 0,
            local: 0,
            offset: 0,
            kind: Kind::Int,
            value: Operand::Constant(3),
            keep: Keep::Nothing,
        },
        StepKind::Put {
            depth: 0,
            value: LOCAL,
        },
        StepKind::Call {
            depth: 0,
            function: 0,
            args: 1,
        },
        StepKind::Result {
            depth: 0,
            kept: true,
        },
        StepKind::Store {
            depth: 0,
            target: TO_GLOBAL,
            kind: Kind::Int,
            value: Operand::Temporary,
            keep: Keep::Nothing,
        },
        StepKind::Turn,
        StepKind::Branch {
            depth: 0,
            test: Test::Computed {
                operation: int_operator(BinaryOp::Greater),
                left: GLOBAL,
                right: Operand::Constant(0),
            },
            of: IntType::Int,
            when: false,
            to: 10,
        },
        StepKind::Update {
            depth: 0,
            target: TO_GLOBAL,
            kind: Kind::Int,
            operation: int_operator(BinaryOp::Sub),
            value: Operand::Constant(4),
            keep: Keep::Nothing,
        },
        StepKind::Jump { to: 6 },
        StepKind::Return {
            depth: 0,
            value: GLOBAL,
        },
    ]
}

/// How the run of a form with this `main` is after a number of marks, without readings.
fn seen_after(alloc: Global, main: &[StepKind], marks: u32) -> Result<Seen, NoMemory> {
    let ir = form(alloc, main)?;
    let state = ir_run(alloc, &ir, &[], marks)?;
    Ok(view_of(&state))
}

/// The marks are: the entries of `main` and `twice`, the end of `twice`, the store, and then for each turn one and one for
/// the update behind it. The end of `main` is the tenth.
#[test]
fn a_call_and_a_loop_make_their_marks(rt: HostRuntime) {
    let a = rt.alloc();
    let main = counts_down();
    for (marks, want) in [
        (0, Seen::Live(0, Value::Int(0))),
        (3, Seen::Live(3, Value::Int(0))),
        (4, Seen::Live(4, Value::Int(6))),
        (7, Seen::Live(7, Value::Int(2))),
        (9, Seen::Live(9, Value::Int(-2))),
        (1000, Seen::Ended(10, Value::Int(-2))),
    ] {
        assert_eq!(rt;
            seen_after(a, &main, marks),
            Ok(want),
            "after {marks} marks"
        );
    }
}

/// `main` asks for a reading that is not there.
#[test]
fn a_run_lacks_a_reading(rt: HostRuntime) {
    let main = [
        StepKind::Enter { params: 0 },
        StepKind::Sense {
            depth: 0,
            channel: 3,
        },
        StepKind::ReturnNothing,
    ];
    assert_eq!(rt;
        seen_after(rt.alloc(), &main, 1),
        Ok(Seen::Live(1, Value::Int(0)))
    );
    assert_eq!(rt; seen_after(rt.alloc(), &main, 2), Ok(Seen::NeedsReading));
}

/// `main` takes away a temporary that is not there.
#[test]
fn a_run_is_stuck_without_a_temporary(rt: HostRuntime) {
    let main = [
        StepKind::Enter { params: 0 },
        StepKind::Drop { depth: 0 },
        StepKind::ReturnNothing,
    ];
    assert_eq!(rt; seen_after(rt.alloc(), &main, 2), Ok(Seen::Stuck));
}
